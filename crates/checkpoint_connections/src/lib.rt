// The connections of a checkpoint, one after another, each added where it fits. What the table holds stands in cells, so
// that a connection, and its call, are found without a search through the table.
#![tactic(auto)]

ghost use Rattle.std.specs.Prelude.{◌≡◌, cond, true, false, ◌<◌, eqb};
ghost use Rattle.table.specs.Words.{table_of};
ghost use Rattle.spec_changes.specs.Connections.{added};
ghost use Rattle.spec_calls.specs.PathRules.{held_by};
ghost use Rattle.spec_checkpoint.specs.Layout.{connection_record};
ghost use Rattle.spec_checkpoint.specs.Salvage.{connection_fits};
ghost use Rattle.checkpoint_connections.specs.Cells.{TableInCells};

use crate::calls::{CallCells, find_call};
use crate::connections::{HeldCells, seek};
use checkpoint_chains::Factors;
use checkpoint_records::checkpoint::Checkpoint;
use find_call::share::listing_of;
use find_connection::standalone::look_standalone;
use fours::taken_in;
use messages::message::Connection;
use table::layout::Words;
use table_words::fours::call_four;
use table_words::ids::is_no_call;
use update_connection::{add_standalone, add_under};

pub mod calls;
pub mod connections;

// Record k, of a Call ID other than 0: its call is open, its four are not full, and it is held nowhere. Here and below,
// what the table holds stands in cells: whoever asks has put it there.
// Kept: two functions. What they ask differs, before and after the look for the connection: with closures for both they
// are no shorter.
fn keep_under(
    t: &mut Words,
    c: Checkpoint,
    f: Factors,
    kept: &CallCells,
    held: &mut HeldCells,
    k: usize,
    x: Connection,
)
    requires { TableInCells f c.bytes.now kept.now held.old (table_of t.old) × (k < c.connections) × (held_by x ≡ connection_record c.bytes.now k) × (eqb x.call.0 0 ≡ false) }
    ensures { (table_of t.new ≡ cond (connection_fits (table_of t.old) (held_by x)) (added (table_of t.old) (held_by x)) (table_of t.old)) × TableInCells f c.entry.bytes.now kept.now held.new (table_of t.new) }
{
    let Some(slot) = find_call(t, f, kept, x) else {
        return;
    };
    if 4 <= taken_in(t, call_four(t, slot)) {
        return;
    }
    let Some(at) = seek(c, f, held, x.lsp) else {
        return;
    };
    held[at] = (k + 1) as u16;
    add_under(t, slot, x.lsp)
}

// Record k, of Call ID 0: its sender is listed and has room, and it is held nowhere.
fn keep_standalone(
    t: &mut Words,
    c: Checkpoint,
    f: Factors,
    kept: &CallCells,
    held: &mut HeldCells,
    k: usize,
    x: Connection,
)
    requires { TableInCells f c.bytes.now kept.now held.old (table_of t.old) × (k < c.connections) × (held_by x ≡ connection_record c.bytes.now k) × (eqb x.call.0 0 ≡ true) }
    ensures { (table_of t.new ≡ cond (connection_fits (table_of t.old) (held_by x)) (added (table_of t.old) (held_by x)) (table_of t.old)) × TableInCells f c.entry.bytes.now kept.now held.new (table_of t.new) }
{
    let Some(m) = listing_of(t, x.lsp.sender) else {
        return;
    };
    let Some(at) = seek(c, f, held, x.lsp) else {
        return;
    };
    let look = look_standalone(t, x);
    if 4 <= look.four {
        return;
    }
    held[at] = (k + 1) as u16;
    add_standalone(t, m.place, x.lsp)
}

// Record k of a checkpoint, added where it fits.
pub fn keep_connection(
    t: &mut Words,
    c: Checkpoint,
    f: Factors,
    kept: &CallCells,
    held: &mut HeldCells,
    k: usize,
)
    requires { TableInCells f c.bytes.now kept.now held.old (table_of t.old) × (k < c.connections) }
    ensures { (table_of t.new ≡ cond (connection_fits (table_of t.old) (connection_record c.entry.bytes.now k)) (added (table_of t.old) (connection_record c.entry.bytes.now k)) (table_of t.old)) × TableInCells f c.entry.bytes.now kept.now held.new (table_of t.new) }
{
    let x = c.connection(k);
    if is_no_call(x.call) {
        keep_standalone(t, c, f, kept, held, k, x)
    } else {
        keep_under(t, c, f, kept, held, k, x)
    }
}
