// The open calls beside a request.
ghost use Rattle.std.specs.Prelude.{◌≡◌, ◌<◌, ◌≤◌, true, replicate};
ghost use Rattle.numbers.specs.Buffer.{at_front};
ghost use Rattle.objects.specs.Part.{part_of, Within};
ghost use Rattle.table.specs.Total.{slots};
ghost use Rattle.table.specs.Word.{is_used};
ghost use Rattle.table.specs.Lists.{call_at};
ghost use Rattle.table.specs.Rules.{rules_hold};
ghost use Rattle.table.specs.Words.{name_at_word, table_of};
ghost use Rattle.spec_calls.specs.CallRules.{ids_in};
ghost use Rattle.find_call.specs.Looks.{look_of, look_with};

use fours::has_taken;
use messages::message::CallRequest;
use occupancy::{is_used, used_below};
use table::layout::Words;
use table_words::calls::{call_head, is_named};
use table_words::fours::call_four;
use table_words::ids::{is_call, is_size};
use table_words::names::name_words;

// What the open calls say of a request: the slot of the call of the pair that has both IDs; the pair has the long ID, the
// short ID in use; connections stand under its short ID.
#[derive(Clone, Copy)]
pub struct Look {
    pub slot: Option<usize>,
    pub long: bool,
    pub short: bool,
    pub busy: bool,
}

// A look with one slot more. Only a call of the request's pair changes it. Names are compared as the table's words: by
// the table rules, zeros stand behind a name.
fn looked(
    look: Look,
    used: bool,
    t: &Words,
    i: usize,
    msg: &[u8],
    q: CallRequest,
    name: &[u32; 8],
) -> Look
    requires { (i < slots) × (used ≡ is_used (table_of t.now).occupied i) × (rules_hold (table_of t.now) ≡ true) × Within msg.now q.name × (q.name.size ≤ 32) × (name_at_word name.now 0 ≡ at_front (part_of msg.now q.name) (replicate 32 0)) }
    ensures { result ≡ look_with look i used (call_at (table_of t.now) i) (ids_in msg.now q) }
{
    let c = call_head(t, i);
    let pair = used & ((q.endpoint == c.endpoint) & (q.sender == c.sender));
    if !pair {
        return look;
    }
    let short = is_call(q.call, c.id);
    let busy = short & has_taken(t, call_four(t, i));
    let long = is_size(q.name.size, c.size) & is_named(t, i, name);
    Look {
        slot: look.slot.or((short & long).then_some(i)),
        long: look.long | long,
        short: look.short | short,
        busy: look.busy | busy,
    }
}

// The rules hold, and the request's name lies within the message: its reading promises that.
pub fn look_up(t: &Words, msg: &[u8], q: CallRequest) -> Look
    requires { (rules_hold (table_of t.now) ≡ true) × Within msg.now q.name × (q.name.size ≤ 32) }
    ensures { result ≡ look_of (table_of t.now) (ids_in msg.now q) }
{
    let name = name_words(msg, q.name.at, q.name.size);
    let mut look = Look {
        slot: None,
        long: false,
        short: false,
        busy: false,
    };
    for i in 0..used_below(t) {
        look = looked(look, is_used(t, i), t, i, msg, q, &name);
    }
    look
}
