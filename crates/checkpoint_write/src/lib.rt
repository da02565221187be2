// Writes a checkpoint (request A13).
#![tactic(auto)]

ghost use Rattle.std.specs.Prelude.{◌≡◌, true, ◌≤◌, length};
ghost use Rattle.table.specs.Rules.{rules_hold};
ghost use Rattle.table.specs.Words.{table_of};
ghost use Rattle.spec_checkpoint.specs.Layout.{checkpoint_of};
ghost use Rattle.spec_checkpoint.specs.Restored.{written};
ghost use Rattle.checkpoint_records.specs.Put.{Put};
ghost use Rattle.checkpoint_write.specs.Answered.{write_number, written_as};

use crate::connections::{put_under_calls, put_with_no_call};
use crate::slots::put_calls;
use checkpoint_records::write::put_head;
use count_connections::connections_held;
use occupancy::open_calls;
use rules::rules_hold;
use table::layout::Words;

mod connections;
mod slots;

// Why nothing is written: the table breaks a rule, or the buffer is too short.
#[derive(Clone, Copy, Debug, PartialEq, Eq)]
pub enum WriteRefusal {
    BrokenRules,
    ShortBuffer,
}

impl WriteRefusal {
    pub fn number(self) -> u8
        ensures { result ≡ write_number self }
    {
        match self {
            WriteRefusal::BrokenRules => 1,
            WriteRefusal::ShortBuffer => 73,
        }
    }
}

// Whoever asks has tested the rules: so the calls can be counted by their marks.
fn checkpoint_size(t: &Words) -> usize
    requires { rules_hold (table_of t.now) ≡ true }
    ensures { result ≡ length (checkpoint_of (table_of t.now)) }
{
    4 + 55 * (open_calls(t) as usize) + 18 * connections_held(t)
}

fn put_checkpoint(out: &mut [u8], t: &Words) -> usize
    requires { (rules_hold (table_of t.now) ≡ true) × (length (checkpoint_of (table_of t.now)) ≤ length out.old) }
    ensures { Put (checkpoint_of (table_of t.now)) result out.old out.new }
{
    let open = open_calls(t) as u16;
    let held = connections_held(t) as u16;
    let a = put_head(out, open, held);
    let b = a + put_calls(&mut out[a..], t);
    let c = b + put_under_calls(&mut out[b..], t);
    c + put_with_no_call(&mut out[c..], t)
}

// Writes a checkpoint, if the table keeps the rules and the buffer has room, and says how many bytes it has; the bytes
// behind the checkpoint keep their content.
pub fn write_checkpoint(t: &Words, out: &mut [u8]) -> Result<usize, WriteRefusal>
    ensures { written_as result out.new ≡ written (table_of t.now) out.old }
{
    if !rules_hold(t) {
        return Err(WriteRefusal::BrokenRules);
    }
    if out.len() < checkpoint_size(t) {
        return Err(WriteRefusal::ShortBuffer);
    }
    Ok(put_checkpoint(out, t))
}
