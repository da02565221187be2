// The connections of a checkpoint: under calls by slot and place, then those of Call ID 0 by customer and place. By the
// table rules every number of theirs fits its bits.
ghost use Rattle.std.specs.Prelude.{◌≡◌, true, ◌≤◌, ◌<◌, length};
ghost use Rattle.lists.specs.Below.{list_if, below};
ghost use Rattle.table.specs.Total.{slots};
ghost use Rattle.table.specs.Lists.{held_place, held_in, held_at, standalone_at};
ghost use Rattle.table.specs.Rules.{rules_hold};
ghost use Rattle.table.specs.Words.{table_of};
ghost use Rattle.table_words.specs.Fours.{four_at_word};
ghost use Rattle.checkpoint_records.specs.Put.{Put};
ghost use Rattle.checkpoint_write.specs.Bytes.{held_bytes, FourFits};

use checkpoint_records::write::put_connection;
use occupancy::is_used;
use table::layout::{CUSTOMERS, PLACES, SLOTS, Words};
use table_words::fours::{FourPlace, call_four, customer_four, endpoint_at, place_words};
use table_words::head::listed;

// A connection's record, if its place is taken.
fn put_place(out: &mut [u8], t: &Words, f: FourPlace, j: usize) -> usize
    requires { (j < 4) × FourFits (four_at_word t.now f) × (length (held_bytes (held_place (four_at_word t.now f) j)) ≤ length out.old) }
    ensures { Put (held_bytes (held_place (four_at_word t.now f) j)) result out.old out.new }
{
    let p = place_words(t, f, j);
    if p.taken != 1 {
        return 0;
    }
    let endpoint = endpoint_at(t, f, j);
    put_connection(
        out,
        f.call.0 as u16,
        endpoint,
        p.tunnel.0 as u16,
        p.extended,
        f.sender,
        p.lsp.0 as u16,
    )
}

// The connections of a four, where its slot is used or its customer listed.
fn put_four(out: &mut [u8], t: &Words, used: bool, f: FourPlace) -> usize
    requires { (used ≡ true → FourFits (four_at_word t.now f)) × (length (held_bytes (list_if used (held_in (four_at_word t.now f)))) ≤ length out.old) }
    ensures { Put (held_bytes (list_if used (held_in (four_at_word t.now f)))) result out.old out.new }
{
    if !used {
        return 0;
    }
    let mut at: usize = 0;
    for j in 0..PLACES {
        at += put_place(&mut out[at..], t, f, j);
    }
    at
}

// Kept: two loops. One over a closure that says which four is in use needs a contract for the closure at each of the two
// calls, as long as the loop.
pub(crate) fn put_under_calls(out: &mut [u8], t: &Words) -> usize
    requires { (rules_hold (table_of t.now) ≡ true) × (length (held_bytes (below (held_at (table_of t.now)) slots)) ≤ length out.old) }
    ensures { Put (held_bytes (below (held_at (table_of t.now)) slots)) result out.old out.new }
{
    let mut at: usize = 0;
    for i in 0..SLOTS {
        at += put_four(&mut out[at..], t, is_used(t, i), call_four(t, i));
    }
    at
}

pub(crate) fn put_with_no_call(out: &mut [u8], t: &Words) -> usize
    requires { (rules_hold (table_of t.now) ≡ true) × (length (held_bytes (below (standalone_at (table_of t.now)) 8)) ≤ length out.old) }
    ensures { Put (held_bytes (below (standalone_at (table_of t.now)) 8)) result out.old out.new }
{
    let n = listed(t);
    let mut at: usize = 0;
    for k in 0..CUSTOMERS {
        at += put_four(&mut out[at..], t, k < n, customer_four(t, k));
    }
    at
}
