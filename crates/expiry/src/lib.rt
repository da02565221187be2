// Before a message (02, A7): the node's time is raised, and the calls that nobody refreshed are closed, and listed by slot
// and address.
#![tactic(auto)]

ghost use Rattle.std.specs.Prelude.{◌≡◌, ◌&&◌, ◌≤◌, ◌<◌, length};
ghost use Rattle.numbers.specs.Buffer.{at_front};
ghost use Rattle.table.specs.Total.{slots};
ghost use Rattle.table.specs.Word.{is_used};
ghost use Rattle.table.specs.Lists.{call_at};
ghost use Rattle.table.specs.Words.{table_of};
ghost use Rattle.spec_changes.specs.Expiry.{raised, is_idle, is_expired, closings_of, closing_words, elapsed};
ghost use Rattle.expiry.specs.Row.{with_closing, SlotExpired};

use fours::taken_in;
use occupancy::{is_used, used_below};
use table::layout::{SLOTS, Words};
use table_words::calls::call_head;
use table_words::fours::call_four;
use table_words::head::{set_time, time};
use update_call::slots::close_slot;

// Room for a closing of every slot: slot and address in turn.
// Kept: words, and no pairs in a type of their own: C lends them (`closings` of `chaffmoor_handle`).
pub const CLOSING_WORDS: usize = 2 * SLOTS;

pub type Closings = [u32; CLOSING_WORDS];

// The node's time is raised to the caller's if that is larger.
pub fn raise_time(t: &mut Words, at: u32)
    ensures { table_of t.new ≡ raised (table_of t.old) at }
{
    let kept = time(t);
    set_time(t, kept.max(at));
}

// No connections. Here and below, whoever asks has the slot from a loop over the table's.
fn is_idle(t: &Words, i: usize) -> bool
    requires { i < slots }
    ensures { result ≡ is_idle (call_at (table_of t.now) i) }
{
    taken_in(t, call_four(t, i)) == 0
}

// A used slot whose call has expired at this time. Five periods are counted in 64 bits. Whoever asks has tested the period:
// 0 closes none.
fn expires(t: &Words, i: usize, at: u32, period: u32) -> bool
    requires { (i < slots) × (0 < period) }
    ensures { result ≡ (is_used (table_of t.now).occupied i && is_expired at period (call_at (table_of t.now) i)) }
{
    let c = call_head(t, i);
    let long = u64::from(c.refreshed) + 5 * u64::from(period) <= u64::from(at);
    if !(is_used(t, i) & long) {
        return false;
    }
    is_idle(t, i)
}

// Closing k of the row.
fn list_closing(closings: &mut Closings, k: usize, slot: u32, address: u32)
    requires { k < slots }
    ensures { closings.new ≡ with_closing closings.old k (record { slot = slot; address = address }) }
{
    closings[2 * k] = slot;
    closings[2 * k + 1] = address;
}

// One slot closed and listed, where its call has expired: how many are listed then, k before it.
fn expire_slot(
    t: &mut Words,
    i: usize,
    at: u32,
    period: u32,
    closings: &mut Closings,
    k: usize,
) -> usize
    requires { (i < slots) × (0 < period) × (k ≤ i) }
    ensures { SlotExpired (table_of t.old) i at period k closings.old result (table_of t.new) closings.new }
{
    if expires(t, i, at, period) {
        let c = call_head(t, i);
        list_closing(closings, k, i as u32, c.sender);
        close_slot(t, i);
        return k + 1;
    }
    k
}

// How many calls were closed: the row's front lists them, and what stands behind them is as it was.
pub fn elapse(t: &mut Words, at: u32, period: u32, closings: &mut Closings) -> usize
    ensures { (result ≡ length (closings_of (raised (table_of t.old) at) period)) × (table_of t.new ≡ elapsed (table_of t.old) at period) × (closings.new ≡ at_front (closing_words (closings_of (raised (table_of t.old) at) period)) closings.old) }
{
    raise_time(t, at);
    if period == 0 {
        return 0;
    }
    let node_time = time(t);
    let mut k: usize = 0;
    for i in 0..used_below(t) {
        k = expire_slot(t, i, node_time, period, closings, k);
    }
    k
}
