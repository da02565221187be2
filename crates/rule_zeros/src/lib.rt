// The rules on names, Call IDs and refreshes, and that what is free holds zeros.
// Kept: numbers with a bound in each contract (table::layout says why).
#![tactic(auto)]

ghost use Rattle.std.specs.Prelude.{◌≡◌, cond, ◌&&◌, ◌||◌, ◌<◌, eqb, ltb, leb};
ghost use Rattle.lists.specs.Below.{every_below};
ghost use Rattle.table.specs.Total.{slots};
ghost use Rattle.table.specs.Word.{is_used};
ghost use Rattle.table.specs.Lists.{call_at, customer_at, place_at, is_taken};
ghost use Rattle.table.specs.Rules.{valid_ids, call_free_clear, call_clear, kept_tidy, customer_free_clear, customer_clear, slot_free_clear, record_free_clear, holds, names_and_ids, refreshes_past, free_holds_zeros};
ghost use Rattle.table.specs.Words.{table_of};
ghost use Rattle.table_words.specs.Fours.{four_at_word};

mod names;

use crate::names::ends_at;
use fours::four_valid;
use occupancy::{is_used, used_below};
use table::layout::Words;
use table_words::calls::{CallHead, call_clear, call_head, calls_clear_from};
use table_words::customers::{customer_clear, last_words};
use table_words::fours::{FourPlace, call_four, customer_four, endpoint_at, place_words};
use table_words::head::{listed, time};
use table_words::ids::is_call_id;

// What a call that the node made has of its request, and that any other has zeros there.
fn request_tidy(c: CallHead) -> bool
    ensures { result ≡ cond (eqb c.made 1) (ltb c.epoch 0x1000000) (eqb c.made 0 && eqb c.epoch 0 && eqb c.identifier 0) }
{
    if c.made == 1 {
        return c.epoch < 16777216;
    }
    (c.made == 0) & (c.epoch == 0) & (c.identifier == 0)
}

// An open call: a name of 1 to 32 bytes that ends in a byte that is not zero, a Call ID of sixteen bits that is not 0,
// no refresh after the node's time, zeros past the name and in the places that are not taken, and a request only where the
// node made the call.
fn call_tidy(t: &Words, time: u32, i: usize) -> bool
    requires { i < slots }
    ensures { result ≡ (valid_ids (call_at (table_of t.now) i) && leb (call_at (table_of t.now) i).refreshed time && call_free_clear (call_at (table_of t.now) i)) }
{
    let c = call_head(t, i);
    if (c.size == 0) | (32 < c.size) {
        return false;
    }
    is_call_id(c.id)
        & (c.refreshed <= time)
        & ends_at(t, i, c.size as usize)
        & request_tidy(c)
        & four_valid(t, call_four(t, i))
}

fn slot_tidy(t: &Words, time: u32, i: usize) -> bool
    requires { i < slots }
    ensures { result ≡ cond (is_used (table_of t.now).occupied i) (valid_ids (call_at (table_of t.now) i) && leb (call_at (table_of t.now) i).refreshed time && call_free_clear (call_at (table_of t.now) i)) (call_clear (call_at (table_of t.now) i)) }
{
    if is_used(t, i) {
        return call_tidy(t, time, i);
    }
    call_clear(t, i)
}

// Names, IDs, refreshes and zeros in one pass. The slots past the last used one are free: their words are tested in one row.
#[tactic(auto, using(lists::proofs::Below::every_none, lists::proofs::Below::every_turn))]
fn slots_tidy(t: &Words) -> bool
    ensures { result ≡ (holds names_and_ids (table_of t.now) && holds refreshes_past (table_of t.now) && every_below (slot_free_clear (table_of t.now)) slots) }
{
    let time = time(t);
    let n = used_below(t);
    let mut tidy = true;
    for i in 0..n {
        tidy &= slot_tidy(t, time, i);
    }
    tidy & calls_clear_from(t, n)
}

// An end point stands beside a taken place.
#[tactic(auto, using(lists::proofs::Below::every_none, lists::proofs::Below::every_turn))]
fn endpoints_clear(t: &Words, f: FourPlace) -> bool
    ensures { result ≡ every_below (λ j. is_taken (place_at (four_at_word t.now f) j) || eqb ((four_at_word t.now f).endpoint j) 0) 4 }
{
    let mut clear = true;
    for j in 0..4 {
        let p = place_words(t, f, j);
        clear &= (p.taken == 1) | (endpoint_at(t, f, j) == 0);
    }
    clear
}

// A last MESSAGE_ID has an epoch of 24 bits; where none is kept there are zeros.
fn kept_tidy(t: &Words, k: usize) -> bool
    requires { k < 8 }
    ensures { result ≡ kept_tidy (customer_at (table_of t.now) k) }
{
    let m = last_words(t, k);
    if m.kept == 1 {
        return m.epoch < 16777216;
    }
    (m.kept == 0) & (m.epoch == 0) & (m.identifier == 0)
}

fn customer_free_clear(t: &Words, k: usize) -> bool
    requires { k < 8 }
    ensures { result ≡ customer_free_clear (customer_at (table_of t.now) k) }
{
    let f = customer_four(t, k);
    kept_tidy(t, k) & four_valid(t, f) & endpoints_clear(t, f)
}

fn record_free_clear(t: &Words, listed: usize, k: usize) -> bool
    requires { k < 8 }
    ensures { result ≡ cond (ltb k listed) (customer_free_clear (customer_at (table_of t.now) k)) (customer_clear (customer_at (table_of t.now) k)) }
{
    if k < listed {
        return customer_free_clear(t, k);
    }
    customer_clear(t, k)
}

#[tactic(auto, using(lists::proofs::Below::every_none, lists::proofs::Below::every_turn))]
fn records_free_clear(t: &Words) -> bool
    ensures { result ≡ every_below (record_free_clear (table_of t.now)) 8 }
{
    let listed = listed(t);
    let mut clear = true;
    for k in 0..8 {
        clear &= record_free_clear(t, listed, k);
    }
    clear
}

pub fn names_and_zeros(t: &Words) -> bool
    ensures { result ≡ (holds names_and_ids (table_of t.now) && holds refreshes_past (table_of t.now) && holds free_holds_zeros (table_of t.now)) }
{
    slots_tidy(t) & records_free_clear(t)
}
