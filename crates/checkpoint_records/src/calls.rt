// The call records of a checkpoint, all of them. They have a file of their own: what their ghost fields cite may not name
// them.
ghost use Rattle.std.specs.Prelude.{◌≡◌, ◌+◌, ◌*◌, ◌<◌, ◌≤◌, length};
ghost use Rattle.spec_checkpoint.specs.Layout.{call_record};

use crate::call::CallRecord;

// So many, which lie within the checkpoint's bytes.
#[derive(Clone, Copy)]
pub struct CallRecords<'a> {
    pub bytes: &'a [u8],
    pub calls: usize,
    pub ghost within: { 4 + 55 * calls ≤ length bytes.now },
    pub ghost most: { calls ≤ 4096 },
}

impl<'a> CallRecords<'a> {
    ghost use Rattle.checkpoint_records.specs.Record.{read_of};

    pub fn call(self, i: usize) -> CallRecord<'a>
        requires { i < self.calls }
        ensures { read_of result ≡ call_record self.entry.bytes.now i }
    {
        CallRecord {
            bytes: self.bytes,
            number: i,
        }
    }
}
