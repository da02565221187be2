// A call's record, read. It has a file of its own: what its ghost field cites may not name it.
ghost use Rattle.std.specs.Prelude.{◌≡◌, ◌+◌, ◌*◌, ◌≤◌, ◌<◌, length};
ghost use Rattle.numbers.specs.BigEndian.{be24_at};
ghost use Rattle.table.specs.Lists.{ids_of};
ghost use Rattle.table.specs.Words.{call_at_word};

use numbers::big_endian::{get16, get24, get32};
use table_words::calls::{CallHead, CallWord, call_words};
use table_words::names::name_words;

// Record `number` of a checkpoint's calls, which lies within the checkpoint's bytes.
#[derive(Clone, Copy)]
pub struct CallRecord<'a> {
    pub bytes: &'a [u8],
    pub number: usize,
    pub ghost inside: { 4 + 55 * number + 55 ≤ length bytes.now },
}

// Three bytes hold no number of more than 24 bits.
fn three_bytes(s: &[u8], at: usize) -> u32
    requires { at + 2 < length s.now }
    ensures { (result ≡ be24_at s.now at) × (result < 0x1000000) }
{
    get24(s, at)
}

impl<'a> CallRecord<'a> {
    ghost use Rattle.checkpoint_records.specs.Record.{read_of};

    // Where it begins.
    pub fn start(self) -> usize
        ensures { result ≡ 4 + 55 * self.entry.number }
    {
        4 + 55 * self.number
    }

    // The slot that it names: any byte.
    pub fn slot(self) -> usize
        ensures { (result ≡ (read_of self.entry).slot) × (result ≤ 255) }
    {
        usize::from(self.bytes[self.start()])
    }

    pub fn id(self) -> u16
        ensures { result ≡ (read_of self.entry).call.id }
    {
        get16(self.bytes, self.start() + 1)
    }

    pub fn endpoint(self) -> u32
        ensures { result ≡ (read_of self.entry).call.endpoint }
    {
        get32(self.bytes, self.start() + 3)
    }

    pub fn sender(self) -> u32
        ensures { result ≡ (read_of self.entry).call.sender }
    {
        get32(self.bytes, self.start() + 7)
    }

    // The mark of a call that the node made: a bit, above the length of the name.
    pub fn made(self) -> u8
        ensures { (result ≡ (read_of self.entry).call.made) × (result < 2) }
    {
        self.bytes[self.start() + 11] / 128
    }

    // How long the name is said to be: it has room for 32 bytes.
    pub fn size(self) -> usize
        ensures { (result ≡ (read_of self.entry).call.size) × (result < 128) }
    {
        usize::from(self.bytes[self.start() + 11] % 128)
    }

    // The bytes of the name that count.
    pub fn name(self) -> &'a [u8]
        ensures { result.now ≡ (ids_of (read_of self.entry).call).long }
    {
        let at = self.start() + 12;
        &self.bytes[at..at + self.size().min(32)]
    }

    pub fn refreshed(self) -> u32
        ensures { result ≡ (read_of self.entry).call.refreshed }
    {
        get32(self.bytes, self.start() + 44)
    }

    pub fn epoch(self) -> u32
        ensures { (result ≡ (read_of self.entry).call.epoch) × (result < 0x1000000) }
    {
        three_bytes(self.bytes, self.start() + 48)
    }

    pub fn identifier(self) -> u32
        ensures { result ≡ (read_of self.entry).call.identifier }
    {
        get32(self.bytes, self.start() + 51)
    }

    // As the words of a slot. All of the name's bytes are taken, those past its length too.
    pub fn words(self) -> [u32; 32]
        ensures { call_at_word result 0 ≡ (read_of self.entry).call }
    {
        let name = name_words(self.bytes, self.start() + 12, 32);
        let head = CallHead {
            endpoint: self.endpoint(),
            sender: self.sender(),
            refreshed: self.refreshed(),
            epoch: self.epoch(),
            identifier: self.identifier(),
            id: CallWord(u32::from(self.id())),
            made: u32::from(self.made()),
            size: self.size() as u32,
        };
        call_words(head, &name)
    }
}
