// The exact way to see that no pair has a short or a long Call ID, or a request, twice: every two open calls are compared.
// It is gone where the keys of a table meet in few chains (rule_keys): it takes as long whatever the calls' IDs are.
#![tactic(auto)]

ghost use Rattle.std.specs.Prelude.{◌≡◌, true, ◌&&◌, ◌<◌};
ghost use Rattle.lists.specs.Below.{every_below};
ghost use Rattle.table.specs.Total.{slots};
ghost use Rattle.table.specs.Rules.{holds, short_ids_once, long_ids_once, requests_once, names_and_ids, free_holds_zeros};
ghost use Rattle.table.specs.Words.{table_of};
ghost use Rattle.rule_uniqueness.specs.Conflict.{conflict, entry_at, apart_at, NamesEnd};

use occupancy::{is_used, used_below};
use table::layout::Words;
use table_words::calls::{call_head, same_names};

// Two slots' calls are of one pair and have the same short ID, the same long ID or, both made by the node, the same request.
// Zeros stand behind the names: so they are the same where their lengths and all of their words are. No branches: all
// pairs of slots take as long.
fn in_conflict(t: &Words, j: usize, i: usize) -> bool
    requires { (j < slots) × (i < slots) × NamesEnd (table_of t.now) }
    ensures { result ≡ conflict (entry_at (table_of t.now) j) (entry_at (table_of t.now) i) }
{
    let c = call_head(t, j);
    let d = call_head(t, i);
    let pair = (c.endpoint == d.endpoint) & (c.sender == d.sender);
    let long = (c.size == d.size) & same_names(t, j, i);
    let request = (c.made == 1)
        & (d.made == 1)
        & (c.epoch == d.epoch)
        & (c.identifier == d.identifier);
    pair & ((c.id == d.id) | long | request)
}

// A slot's call is in conflict with none of the earlier ones.
#[tactic(auto, using(lists::proofs::Below::every_none, lists::proofs::Below::every_turn))]
fn apart_from_earlier(t: &Words, i: usize) -> bool
    requires { (i < slots) × NamesEnd (table_of t.now) }
    ensures { result ≡ every_below (apart_at (table_of t.now) i) i }
{
    let used = is_used(t, i);
    let mut apart = true;
    for j in 0..i {
        apart &= !(is_used(t, j) & (used & in_conflict(t, j, i)));
    }
    apart
}

// Names and zeros are tested before: so the names end where their lengths say.
#[tactic(auto, using(lists::proofs::Pairs::pairs_none, lists::proofs::Pairs::outer_turn))]
pub fn ids_once(t: &Words) -> bool
    requires { (holds names_and_ids (table_of t.now) ≡ true) × (holds free_holds_zeros (table_of t.now) ≡ true) }
    ensures { result ≡ (holds short_ids_once (table_of t.now) && holds long_ids_once (table_of t.now) && holds requests_once (table_of t.now)) }
{
    let n = used_below(t);
    let mut apart = true;
    for i in 0..n {
        apart &= apart_from_earlier(t, i);
    }
    apart
}
