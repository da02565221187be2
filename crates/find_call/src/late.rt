// Late messages (02, A8).
ghost use Rattle.std.specs.Prelude.{◌≡◌, ◌<◌};
ghost use Rattle.table.specs.Lists.{customer_at};
ghost use Rattle.table.specs.Words.{table_of};
ghost use Rattle.spec_changes.specs.Last.{kept_in};
ghost use Rattle.spec_calls.specs.Late.{is_behind, is_late};

use objects::fields::MessageId;
use table::layout::Words;
use table_words::customers::last_words;

// Whether a new identifier lies behind the old one: the difference, read as a signed number, is above zero.
pub fn is_behind(old: u32, new: u32) -> bool
    ensures { result ≡ is_behind old new }
{
    let d = std::num::wrapping_sub_u32(old, new);
    (d != 0) & (d < 0x8000_0000)
}

// Whether a MESSAGE_ID is late by what a customer's record keeps. Whoever asks has looked the record up.
pub fn is_late(t: &Words, k: usize, id: MessageId) -> bool
    requires { k < 8 }
    ensures { result ≡ is_late (kept_in (customer_at (table_of t.now) k)) id }
{
    let m = last_words(t, k);
    let same = (m.kept == 1) & (m.epoch == id.epoch);
    same & is_behind(m.identifier, id.identifier)
}
