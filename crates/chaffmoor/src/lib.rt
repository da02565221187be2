// The node's call side for programs in C and Rust: the static library's functions, with 01's numbers for answers. The
// caller lends the table, and the node works in it in place. include/chaffmoor.h declares them.
#![tactic(auto)]

ghost use Rattle.std.specs.Prelude.{◌≡◌, eqb, length};
ghost use Rattle.numbers.specs.Buffer.{at_front};
ghost use Rattle.table.specs.Roster.{roster_number, roster_answer, table_for};
ghost use Rattle.table.specs.Words.{table_of};
ghost use Rattle.spec_changes.specs.Expiry.{closing_words};
ghost use Rattle.answers.specs.Answers.{answer_number};
ghost use Rattle.spec_calls.specs.Handling.{handled};
ghost use Rattle.spec_checkpoint.specs.Restored.{written, restored};

use checkpoint_read::read_checkpoint;
use checkpoint_write::write_checkpoint;
use expiry::Closings;
use node::handle::handle;
use rosters::read_roster;
use table::answer::roster_number;
use table::layout::Words;

// Kept: structs of numbers, and 0 for success and for no reply, here and below: C reads them.
#[repr(C)]
#[derive(Clone, Copy)]
pub struct MessageReply {
    pub answer: u8,
    pub length: usize,
    pub closed: usize,
}

#[repr(C)]
#[derive(Clone, Copy)]
pub struct CheckpointWritten {
    pub answer: u8,
    pub length: usize,
}

#[repr(C)]
#[derive(Clone, Copy)]
pub struct CheckpointRead {
    pub answer: u8,
    pub calls: usize,
    pub connections: usize,
}

// Reads a roster of any bytes into a table of any words.
#[unsafe(no_mangle)]
pub extern "C" fn chaffmoor_read_roster(table: &mut Words, roster: &[u8]) -> u8
    ensures { (result ≡ roster_number (roster_answer roster.now)) × (table_of table.new ≡ table_for (roster_answer roster.now) roster.now) }
{
    roster_number(read_roster(table, roster))
}

// Handles a message: any table, any bytes, any buffer, time and period. The closings' front lists the calls that were
// closed before it, slot and address in turn.
#[unsafe(no_mangle)]
pub extern "C" fn chaffmoor_handle(
    table: &mut Words,
    message: &[u8],
    reply: &mut [u8],
    time: u32,
    period: u32,
    closings: &mut Closings,
) -> MessageReply
    ensures { (result.answer ≡ answer_number (handled (table_of table.old) message.now reply.old time period).answer) × (result.length ≡ (handled (table_of table.old) message.now reply.old time period).length) × (result.closed ≡ length (handled (table_of table.old) message.now reply.old time period).closings) × (table_of table.new ≡ (handled (table_of table.old) message.now reply.old time period).table) × (reply.new ≡ (handled (table_of table.old) message.now reply.old time period).buffer) × (closings.new ≡ at_front (closing_words (handled (table_of table.old) message.now reply.old time period).closings) closings.old) }
{
    let r = handle(table, message, reply, time, period, closings);
    let answer = r.answer;
    MessageReply {
        answer: u8::from(answer),
        length: r.length,
        closed: r.closed,
    }
}

// Writes a checkpoint of any table into any buffer.
#[unsafe(no_mangle)]
pub extern "C" fn chaffmoor_write_checkpoint(
    table: &Words,
    checkpoint: &mut [u8],
) -> CheckpointWritten
    ensures { (result.answer ≡ (written (table_of table.now) checkpoint.old).answer) × (result.length ≡ (written (table_of table.now) checkpoint.old).length) × (checkpoint.new ≡ (written (table_of table.now) checkpoint.old).buffer) }
{
    match write_checkpoint(table, checkpoint) {
        Ok(length) => CheckpointWritten { answer: 0, length },
        Err(refusal) => CheckpointWritten {
            answer: refusal.number(),
            length: 0,
        },
    }
}

// Reads a checkpoint of any bytes under a roster of any bytes, into a table of any words: with salvage where `salvage` is
// 1, plainly where it is any other number.
#[unsafe(no_mangle)]
pub extern "C" fn chaffmoor_read_checkpoint(
    table: &mut Words,
    salvage: u32,
    roster: &[u8],
    checkpoint: &[u8],
) -> CheckpointRead
    ensures { record { answer = result.answer; table = table_of table.new; calls = result.calls; connections = result.connections } ≡ restored (eqb salvage 1) roster.now checkpoint.now }
{
    match read_checkpoint(table, salvage == 1, roster, checkpoint) {
        Ok(d) => CheckpointRead {
            answer: 0,
            calls: d.calls,
            connections: d.connections,
        },
        Err(e) => CheckpointRead {
            answer: e.number(),
            calls: 0,
            connections: 0,
        },
    }
}
