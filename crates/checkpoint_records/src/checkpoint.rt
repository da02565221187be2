// A checkpoint of the size that its counts say. It has a file of its own: what its ghost fields cite may not name it.
ghost use Rattle.std.specs.Prelude.{◌≡◌, ◌+◌, ◌*◌, ◌<◌, length};
ghost use Rattle.numbers.specs.BigEndian.{Bytes};
ghost use Rattle.spec_checkpoint.specs.Layout.{calls_in, connections_in, checkpoint_size, call_record, connection_record};
ghost use Rattle.spec_calls.specs.PathRules.{held_by};

use crate::call::CallRecord;
use crate::read::connection_record;
use messages::message::Connection;

#[derive(Clone, Copy)]
pub struct Checkpoint<'a> {
    pub bytes: &'a [u8],
    pub calls: usize,
    pub connections: usize,
    pub ghost calls_is: { calls ≡ calls_in bytes.now },
    pub ghost connections_is: { connections ≡ connections_in bytes.now },
    pub ghost connections_fit: { connections < 65536 },
    pub ghost all_bytes: { Bytes bytes.now },
    pub ghost size: { length bytes.now ≡ checkpoint_size calls connections },
}

impl<'a> Checkpoint<'a> {
    ghost use Rattle.checkpoint_records.specs.Record.{read_of};

    pub fn call(self, i: usize) -> CallRecord<'a>
        requires { i < self.calls }
        ensures { read_of result ≡ call_record self.entry.bytes.now i }
    {
        CallRecord {
            bytes: self.bytes,
            number: i,
        }
    }

    pub fn connection(self, k: usize) -> Connection
        requires { k < self.connections }
        ensures { held_by result ≡ connection_record self.entry.bytes.now k }
    {
        connection_record(self.bytes, 4 + 55 * self.calls + 18 * k)
    }
}
