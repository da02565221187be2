// The tests of IDs and of the table's words for them, kind by kind, so that none is taken for another. Words of one kind
// are compared by `==`. No other function compares what is in them, but for the columns of `rule_connections`, each of
// which has words of one kind.
ghost use Rattle.std.specs.Prelude.{◌≡◌, not, ◌&&◌, eqb, ltb};

use crate::calls::CallWord;
use crate::fours::{LspWord, TunnelWord};
use objects::fields::{CallId, LspId, TunnelId};

// An ID of a message against a word of the table.
// Kept: one test for each kind, here and below. A generic one needs a trait with an impl for each kind, which is longer.
pub fn is_call(id: CallId, word: CallWord) -> bool
    ensures { result ≡ eqb id.0 word.0 }
{
    id.0 as u32 == word.0
}

pub fn is_tunnel(id: TunnelId, word: TunnelWord) -> bool
    ensures { result ≡ eqb id.0 word.0 }
{
    id.0 as u32 == word.0
}

pub fn is_lsp(id: LspId, word: LspWord) -> bool
    ensures { result ≡ eqb id.0 word.0 }
{
    id.0 as u32 == word.0
}

// Call ID 0 means no call.
pub fn is_no_call(id: CallId) -> bool
    ensures { result ≡ eqb id.0 0 }
{
    id.0 == 0
}

// A word that can be a call's ID: of sixteen bits, and not 0.
pub fn is_call_id(word: CallWord) -> bool
    ensures { result ≡ (not (eqb word.0 0) && ltb word.0 0x10000) }
{
    (word.0 != 0) & (word.0 < 0x10000)
}

// Words of sixteen bits.
pub fn is_tunnel_id(word: TunnelWord) -> bool
    ensures { result ≡ ltb word.0 0x10000 }
{
    word.0 < 0x10000
}

pub fn is_lsp_id(word: LspWord) -> bool
    ensures { result ≡ ltb word.0 0x10000 }
{
    word.0 < 0x10000
}

// The length of a name.
pub fn is_size(n: usize, word: u32) -> bool
    ensures { result ≡ eqb n word }
{
    n == word as usize
}
