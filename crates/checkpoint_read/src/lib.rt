// A table read from a checkpoint of one (request A13): any bytes get an answer, and the lent table becomes the one that
// goes with it.
#![tactic(auto)]

ghost use Rattle.std.specs.Prelude.{◌≡◌, [], true, false, Ok, MatchOption, replicate};
ghost use Rattle.table.specs.Lists.{held};
ghost use Rattle.table.specs.Rules.{rules_hold};
ghost use Rattle.table.specs.Words.{table_of};
ghost use Rattle.spec_changes.specs.Shape.{Shape};
ghost use Rattle.spec_checkpoint.specs.Restored.{bad_size, restored};
ghost use Rattle.checkpoint_read.specs.declared.ReadRefusal.TheVariants.{Roster};
ghost use Rattle.checkpoint_read.specs.Read.{read_number, restored_as, read_into};

use crate::filling::{with_calls, with_connections};
use checkpoint_chains::factors_of;
use checkpoint_records::checkpoint::Checkpoint;
use count_connections::connections_held;
use numbers::big_endian::get16;
use occupancy::open_calls;
use rosters::read_roster;
use table::answer::{RosterFault, roster_number};
use table::layout::Words;

mod filling;

// How many records of calls, and of connections, are not in the table.
#[derive(Clone, Copy)]
pub struct Dropped {
    pub calls: usize,
    pub connections: usize,
}

// Why nothing is read: the roster is not accepted, the checkpoint's size is not that of its counts, its form is another
// one, or a record would be dropped where none may be.
#[derive(Clone, Copy)]
pub enum ReadRefusal {
    Roster(RosterFault),
    BadSize,
    OtherForm,
    Incomplete,
}

impl ReadRefusal {
    pub fn number(self) -> u8
        ensures { result ≡ read_number self }
    {
        match self {
            ReadRefusal::Roster(fault) => roster_number(Err(fault)),
            ReadRefusal::BadSize => 70,
            ReadRefusal::OtherForm => 71,
            ReadRefusal::Incomplete => 72,
        }
    }
}

impl From<RosterFault> for ReadRefusal {
    ghost from_gives = { λ fault e. e ≡ Roster fault };

    fn from(fault: RosterFault) -> ReadRefusal {
        Self::Roster(fault)
    }
}

// A checkpoint in so many bytes as its counts say, and nothing else.
fn sized(s: &[u8]) -> Option<Checkpoint<'_>>
    ensures { MatchOption result (bad_size s.now ≡ true) (λ c. (c.bytes.now ≡ s.now) × (bad_size s.now ≡ false)) }
{
    if s.len() < 4 {
        return None;
    }
    let calls = usize::from(get16(s, 0) % 4096);
    let connections = usize::from(get16(s, 2));
    if s.len() != 4 + 55 * calls + 18 * connections {
        return None;
    }
    Some(Checkpoint {
        bytes: s,
        calls,
        connections,
    })
}

// All records that are kept, in a fresh table: it keeps the rules and has no call and no connection.
fn read_records(t: &mut Words, c: Checkpoint) -> Dropped
    requires { (rules_hold (table_of t.old) ≡ true) × ((table_of t.old).occupied ≡ replicate 4 0) × Shape (table_of t.old) × (held (table_of t.old) ≡ []) }
    ensures { restored_as (Ok result) (table_of t.new) ≡ read_into (table_of t.old) c.entry.bytes.now }
{
    let f = factors_of(c.bytes);
    with_calls(t, c, f);
    with_connections(t, c, f);
    Dropped {
        calls: c.calls.saturating_sub(open_calls(t) as usize),
        connections: c.connections.saturating_sub(connections_held(t)),
    }
}

// The tests in the order of the refusals. A refused reading leaves the roster's table: where a record would be dropped the
// roster is read again.
pub fn read_checkpoint(
    t: &mut Words,
    salvage: bool,
    roster: &[u8],
    checkpoint: &[u8],
) -> Result<Dropped, ReadRefusal>
    ensures { restored_as result (table_of t.new) ≡ restored salvage roster.now checkpoint.now }
{
    read_roster(t, roster)?;
    let Some(c) = sized(checkpoint) else {
        return Err(ReadRefusal::BadSize);
    };
    if checkpoint[0] / 16 != 1 {
        return Err(ReadRefusal::OtherForm);
    }
    let d = read_records(t, c);
    let complete = (d.calls == 0) & (d.connections == 0);
    if salvage | complete {
        return Ok(d);
    }
    let _ = read_roster(t, roster);
    Err(ReadRefusal::Incomplete)
}
