// How many connections a table holds: under its calls, with its customers, and in all.
#![tactic(auto)]

ghost use Rattle.std.specs.Prelude.{◌≡◌, true, cond, ◌≤◌, ◌<◌, length, ltb};
ghost use Rattle.lists.specs.Count.{count_if};
ghost use Rattle.lists.specs.Below.{below};
ghost use Rattle.table.specs.Total.{slots};
ghost use Rattle.table.specs.Word.{is_used};
ghost use Rattle.table.specs.Lists.{call_at, customer_at, call_four, customer_four, held_in, held_at, standalone_at, held};
ghost use Rattle.table.specs.Words.{table_of};

use fours::taken_in;
use occupancy::is_used;
use table::layout::{CUSTOMERS, SLOTS, Words};
use table_words::fours::{call_four, customer_four};
use table_words::head::listed;

// One of the table's slots, used or free: a free one has none.
fn taken_in_slot(t: &Words, i: usize) -> usize
    requires { i < slots }
    ensures { (result ≡ cond (is_used (table_of t.now).occupied i) (count_if (λ x. true) (held_in (call_four (call_at (table_of t.now) i)))) 0) × (result ≤ 4) }
{
    if is_used(t, i) {
        return taken_in(t, call_four(t, i));
    }
    0
}

pub fn held_under_calls(t: &Words) -> usize
    ensures { (result ≡ count_if (λ x. true) (below (held_at (table_of t.now)) slots)) × (result ≤ 800) }
{
    let mut n: usize = 0;
    for i in 0..SLOTS {
        n += taken_in_slot(t, i);
    }
    n
}

// One of the eight roster records: an unused one has none.
fn taken_in_record(t: &Words, listed: usize, k: usize) -> usize
    requires { k < 8 }
    ensures { (result ≡ cond (ltb k listed) (count_if (λ x. true) (held_in (customer_four (customer_at (table_of t.now) k)))) 0) × (result ≤ 4) }
{
    if k < listed {
        return taken_in(t, customer_four(t, k));
    }
    0
}

// Those of Call ID 0, of the listed customers.
pub fn held_standalone(t: &Words) -> usize
    ensures { (result ≡ count_if (λ x. true) (below (standalone_at (table_of t.now)) 8)) × (result ≤ 32) }
{
    let listed = listed(t);
    let mut n: usize = 0;
    for k in 0..CUSTOMERS {
        n += taken_in_record(t, listed, k);
    }
    n
}

pub fn connections_held(t: &Words) -> usize
    ensures { (result ≡ length (held (table_of t.now))) × (result ≤ 832) }
{
    held_under_calls(t) + held_standalone(t)
}
