// The table filled from a checkpoint's records, the calls first.
ghost use Rattle.std.specs.Prelude.{◌≡◌, [], true, replicate};
ghost use Rattle.table.specs.Lists.{held};
ghost use Rattle.table.specs.Rules.{rules_hold};
ghost use Rattle.table.specs.Words.{table_of};
ghost use Rattle.spec_changes.specs.Shape.{Shape};
ghost use Rattle.spec_checkpoint.specs.Salvage.{with_calls, with_connections};

use checkpoint_chains::Factors;
use checkpoint_choice::choosing::{is_best, long_chains, sound_flags};
use checkpoint_choice::naming::named_counts;
use checkpoint_connections::calls::{CallCells, note_calls};
use checkpoint_connections::connections::HeldCells;
use checkpoint_connections::keep_connection;
use checkpoint_records::calls::CallRecords;
use checkpoint_records::checkpoint::Checkpoint;
use checkpoint_salvage::placing::with_call;
use table::layout::Words;

// Into a fresh table, which keeps the rules and has no call. The arrays are made here, once, and lent, to save stack: the
// heads of the chains by short ID are those of the chains by long Call ID next, zeros again.
pub fn with_calls(t: &mut Words, c: Checkpoint, f: Factors)
    requires { (rules_hold (table_of t.old) ≡ true) × ((table_of t.old).occupied ≡ replicate 4 0) }
    ensures { table_of t.new ≡ with_calls (table_of t.old) c.entry.bytes.now c.entry.calls }
{
    let records = CallRecords {
        bytes: c.bytes,
        calls: c.calls,
    };
    let mut sound: [u8; 4096] = [0; 4096];
    sound_flags(t, records, &mut sound);
    let mut heads: [u16; 1024] = [0; 1024];
    let mut links: [u16; 4096] = [0; 4096];
    let mut named: [u16; 4096] = [0; 4096];
    named_counts(c, f, &mut heads, &mut links, &mut named);
    heads = [0; 1024];
    long_chains(records, f, &sound, &mut heads, &mut links);
    for i in 0..c.calls {
        let best = is_best(records, f, &heads, &links, &sound, &named, i);
        with_call(t, best, c.call(i));
    }
}

// Into a table that keeps the rules and has no connection: its calls are put into cells first, and each connection that
// is added.
pub fn with_connections(t: &mut Words, c: Checkpoint, f: Factors)
    requires { Shape (table_of t.old) × (rules_hold (table_of t.old) ≡ true) × (held (table_of t.old) ≡ []) }
    ensures { table_of t.new ≡ with_connections (table_of t.old) c.entry.bytes.now c.entry.connections }
{
    let mut kept: CallCells = [0; 2304];
    note_calls(t, f, &mut kept);
    let mut held: HeldCells = [0; 3072];
    for k in 0..c.connections {
        keep_connection(t, c, f, &kept, &mut held, k);
    }
}
