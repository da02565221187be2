// Four places for connections, a call's or a customer's of Call ID 0, by where they stand.
#![tactic(auto)]

ghost use Rattle.std.specs.Prelude.{◌≡◌, true, cond, not, ◌+◌, ◌≤◌, ◌<◌};
ghost use Rattle.lists.specs.Count.{bit, count_if, has};
ghost use Rattle.lists.specs.Below.{first_below};
ghost use Rattle.table.specs.Lists.{place_at, is_taken, held_in};
ghost use Rattle.table.specs.Rules.{place_valid, four_valid};
ghost use Rattle.table_words.specs.Fours.{four_at_word, place_of_words};

use table::layout::Words;
use table_words::fours::{FourPlace, LspWord, PlaceWords, TunnelWord, place_words};
use table_words::ids::{is_lsp_id, is_tunnel_id};

fn is_taken(t: &Words, f: FourPlace, j: usize) -> bool
    requires { j < 4 }
    ensures { result ≡ is_taken (place_at (four_at_word t.now f) j) }
{
    let p = place_words(t, f, j);
    p.taken == 1
}

// How many places are taken.
pub fn taken_in(t: &Words, f: FourPlace) -> usize
    ensures { (result ≡ count_if (λ x. true) (held_in (four_at_word t.now f))) × (result ≤ 4) }
{
    let mut n = 0;
    for j in 0..4 {
        n += usize::from(is_taken(t, f, j));
    }
    n
}

pub fn has_taken(t: &Words, f: FourPlace) -> bool
    ensures { result ≡ has (λ x. true) (held_in (four_at_word t.now f)) }
{
    0 < taken_in(t, f)
}

// The lowest free place, 0 where none is.
// Kept: a number and no Option: callers have counted the places, and `first_below` of the contract says 0 too.
pub fn free_place(t: &Words, f: FourPlace) -> usize
    ensures { (result ≡ first_below (λ j. not (is_taken (place_at (four_at_word t.now f) j))) 4) × (result < 4) }
{
    for j in 0..4 {
        if !is_taken(t, f, j) {
            return j;
        }
    }
    0
}

// Taken, with a Tunnel ID and an LSP ID of sixteen bits, or free and zero.
fn place_valid(p: PlaceWords) -> bool
    ensures { result ≡ place_valid (place_of_words p) }
{
    if p.taken == 1 {
        return is_tunnel_id(p.tunnel) & is_lsp_id(p.lsp);
    }
    (p.taken == 0) & (p.tunnel == TunnelWord(0)) & (p.extended == 0) & (p.lsp == LspWord(0))
}

#[tactic(auto, using(lists::proofs::Below::every_none, lists::proofs::Below::every_turn))]
pub fn four_valid(t: &Words, f: FourPlace) -> bool
    ensures { result ≡ four_valid (four_at_word t.now f) }
{
    let mut valid = true;
    for j in 0..4 {
        valid &= place_valid(place_words(t, f, j));
    }
    valid
}
