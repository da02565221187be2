// The calls of a checkpoint, in slot order.
ghost use Rattle.std.specs.Prelude.{◌≡◌, true, ◌≤◌, ◌<◌, length};
ghost use Rattle.table.specs.Total.{slots};
ghost use Rattle.table.specs.Lists.{call_at};
ghost use Rattle.table.specs.Rules.{rules_hold};
ghost use Rattle.table.specs.Words.{table_of};
ghost use Rattle.checkpoint_records.specs.Put.{Put, CallFields};
ghost use Rattle.checkpoint_write.specs.Bytes.{slot_bytes, calls_bytes};

use checkpoint_records::write::put_call;
use occupancy::is_used;
use table::layout::{SLOTS, Words};

// A slot's call, where it is used.
fn put_slot(out: &mut [u8], t: &Words, used: bool, i: usize) -> usize
    requires { (i < slots) × (used ≡ true → CallFields (call_at (table_of t.now) i)) × (length (slot_bytes used i (call_at (table_of t.now) i)) ≤ length out.old) }
    ensures { Put (slot_bytes used i (call_at (table_of t.now) i)) result out.old out.new }
{
    if used {
        return put_call(out, t, i);
    }
    0
}

// By the table rules every number of a call fits its bits.
pub(crate) fn put_calls(out: &mut [u8], t: &Words) -> usize
    requires { (rules_hold (table_of t.now) ≡ true) × (length (calls_bytes (table_of t.now)) ≤ length out.old) }
    ensures { Put (calls_bytes (table_of t.now)) result out.old out.new }
{
    let mut at: usize = 0;
    for i in 0..SLOTS {
        at += put_slot(&mut out[at..], t, is_used(t, i), i);
    }
    at
}
