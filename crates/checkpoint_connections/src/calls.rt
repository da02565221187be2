// The open calls in cells, by pair and short ID. There are 2,048 places, and cells behind the last one: 200 calls find
// room wherever they begin.
ghost use Rattle.std.specs.Prelude.{◌≡◌, ◌+◌, ◌<◌, ◌≤◌, length, replicate};
ghost use Rattle.lists.specs.Count.{count_if, has};
ghost use Rattle.lists.specs.Below.{below};
ghost use Rattle.table.specs.Total.{slots};
ghost use Rattle.table.specs.Lists.{open_at, entries};
ghost use Rattle.table.specs.Words.{table_of};
ghost use Rattle.spec_calls.specs.PathRules.{held_by};
ghost use Rattle.checkpoint_connections.specs.Cells.{is_filled, FirstFree, is_call_in, CallsInCells, CallFound};

use checkpoint_chains::{Factors, spread};
use find_connection::under::is_named;
use messages::message::Connection;
use occupancy::{is_used, used_below};
use table::layout::{SLOTS, Words};
use table_words::calls::call_head;

pub type CallCells = [u8; 2304];

// The first free cell from a place on. There is one: at most 200 are filled.
fn free_cell(cells: &CallCells, place: usize) -> usize
    requires { (place < 2048) × (count_if is_filled cells.now ≤ slots) }
    ensures { FirstFree cells.now place result × (result < 2304) }
{
    for j in place..2304 {
        if cells[j] == 0 {
            return j;
        }
    }
    unreachable!()
}

// Puts a slot's call behind those of the slots before it. Whoever asks says why the slot is one of the table's.
fn note_slot(t: &Words, f: Factors, cells: &mut CallCells, i: usize)
    requires { (i < slots) × CallsInCells f (below (open_at (table_of t.now)) i) cells.old i }
    ensures { CallsInCells f (below (open_at (table_of t.now)) (i + 1)) cells.new (i + 1) }
{
    if is_used(t, i) {
        let c = call_head(t, i);
        let j = free_cell(cells, spread(f, c.endpoint, c.sender, c.id.0, 0));
        cells[j] = (i + 1) as u8;
    }
}

// All open calls, into free cells: whoever asks has made them.
pub fn note_calls(t: &Words, f: Factors, cells: &mut CallCells)
    requires { cells.old ≡ replicate 2304 0 }
    ensures { CallsInCells f (entries (table_of t.now)) cells.new slots }
{
    let n = used_below(t);
    for i in 0..n {
        note_slot(t, f, cells, i);
    }
}

// The slot's call is the connection's. Any number is looked at: one that is no slot's has no call.
fn is_call_of(t: &Words, slot: usize, x: Connection) -> bool
    ensures { result ≡ has (is_call_in (held_by x) slot) (entries (table_of t.now)) }
{
    if SLOTS <= slot {
        return false;
    }
    let used = is_used(t, slot);
    used & is_named(t, slot, x.call, x.lsp.endpoint, x.lsp.sender)
}

// The slot of a connection's call, where that is open.
pub fn find_call(t: &Words, f: Factors, cells: &CallCells, x: Connection) -> Option<usize>
    requires { CallsInCells f (entries (table_of t.now)) cells.now slots }
    ensures { CallFound (table_of t.now) (held_by x) result }
{
    let place = spread(f, x.lsp.endpoint, x.lsp.sender, u32::from(x.call.0), 0);
    for j in place..2304 {
        if cells[j] == 0 {
            return None;
        }
        let slot = usize::from(cells[j]) - 1;
        if is_call_of(t, slot, x) {
            return Some(slot);
        }
    }
    unreachable!()
}
