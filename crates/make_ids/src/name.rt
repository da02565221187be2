// The name that is made of a pair and a short ID, as the table's words and as bytes.
ghost use Rattle.std.specs.Prelude.{◌≡◌, replicate};
ghost use Rattle.numbers.specs.Buffer.{at_front};
ghost use Rattle.table.specs.Words.{name_at_word};
ghost use Rattle.spec_calls.specs.Made.{made_name};

use crate::digits::{four_digits, pair_digits};
use objects::fields::CallId;
use table_words::names::byte_of;

// How many bytes a made name has.
pub const MADE_SIZE: usize = 20;

// The name as the table holds it, zeros behind it.
pub fn made_name_words(endpoint: u32, sender: u32, id: CallId) -> [u32; 8]
    ensures { name_at_word result 0 ≡ at_front (made_name endpoint sender id.0) (replicate 32 0) }
{
    let p = pair_digits(endpoint, sender);
    let number = four_digits(id.0 as u32);
    [
        p.sender_high,
        p.sender_low,
        p.endpoint_high,
        p.endpoint_low,
        number,
        0,
        0,
        0,
    ]
}

// The bytes of a name's words: so table and reply cannot differ.
pub fn name_bytes(words: &[u32; 8]) -> [u8; 32]
    ensures { result ≡ name_at_word words.now 0 }
{
    let mut name = [0u8; 32];
    for k in 0..32 {
        name[k] = byte_of(words[k / 4], k % 4);
    }
    name
}
