// The writers of a checkpoint's head and records. Each writes at the front of the slice that it is lent, which is what
// remains of the buffer, and answers how many bytes that were. Each asks for room: the checkpoint's size is tested
// once, before it is written.
ghost use Rattle.std.specs.Prelude.{◌≡◌, [], ◌∷◌, ◌++◌, ◌+◌, ◌*◌, ◌≤◌, ◌<◌, length};
ghost use Rattle.numbers.specs.BigEndian.{bytes16, bytes24, bytes32};
ghost use Rattle.table.specs.Total.{slots};
ghost use Rattle.table.specs.Lists.{call_at};
ghost use Rattle.table.specs.Words.{table_of};
ghost use Rattle.spec_checkpoint.specs.Layout.{head_bytes, call_bytes, connection_bytes};
ghost use Rattle.checkpoint_records.specs.Put.{Put, CallFields};

use numbers::big_endian::{put8, put16, put24, put32};
use table::layout::Words;
use table_words::calls::{CallHead, call_head};
use table_words::names::name_byte;

// Form 1 above the number of calls, and the number of connections.
pub fn put_head(out: &mut [u8], calls: u16, connections: u16) -> usize
    requires { (calls < 4096) × (4 ≤ length out.old) }
    ensures { Put (head_bytes calls connections) result out.old out.new }
{
    put16(out, 0, 4096 + calls);
    put16(out, 2, connections);
    4
}

// The mark of a call that the node made, above the length of its name: a bit and seven.
fn marked(made: u32, size: u32) -> u8
    requires { (made < 2) × (size < 128) }
    ensures { result ≡ made * 128 + size }
{
    (made * 128 + size) as u8
}

// What a call's record has before the name. Here and below, each number of the call fits its bits: in a table that keeps
// the rules all do.
fn put_before_name(out: &mut [u8], slot: u8, c: CallHead) -> usize
    requires { (c.id.0 < 0x10000) × (c.made < 2) × (c.size < 128) × (12 ≤ length out.old) }
    ensures { (result ≡ 12) × Put (slot ∷ bytes16 c.id.0 ++ bytes32 c.endpoint ++ bytes32 c.sender ++ ((c.made * 128 + c.size) ∷ [])) result out.old out.new }
{
    put8(out, 0, slot);
    put16(out, 1, c.id.0 as u16);
    put32(out, 3, c.endpoint);
    put32(out, 7, c.sender);
    put8(out, 11, marked(c.made, c.size));
    12
}

// All 32 bytes of the name's room.
fn put_name(out: &mut [u8], t: &Words, i: usize) -> usize
    requires { (i < slots) × (32 ≤ length out.old) }
    ensures { (result ≡ 32) × Put (call_at (table_of t.now) i).name result out.old out.new }
{
    for k in 0..32 {
        out[k] = name_byte(t, i, k);
    }
    32
}

// What it has behind the name.
fn put_behind_name(out: &mut [u8], c: CallHead) -> usize
    requires { 11 ≤ length out.old }
    ensures { (result ≡ 11) × Put (bytes32 c.refreshed ++ bytes24 c.epoch ++ bytes32 c.identifier) result out.old out.new }
{
    put32(out, 0, c.refreshed);
    put24(out, 4, c.epoch);
    put32(out, 7, c.identifier);
    11
}

// The record of a slot's call.
pub fn put_call(out: &mut [u8], t: &Words, i: usize) -> usize
    requires { (i < slots) × CallFields (call_at (table_of t.now) i) × (55 ≤ length out.old) }
    ensures { Put (call_bytes i (call_at (table_of t.now) i)) result out.old out.new }
{
    let c = call_head(t, i);
    let a = put_before_name(out, i as u8, c);
    let b = a + put_name(&mut out[a..], t, i);
    b + put_behind_name(&mut out[b..], c)
}

// A connection's record.
pub fn put_connection(
    out: &mut [u8],
    call: u16,
    endpoint: u32,
    tunnel: u16,
    extended: u32,
    sender: u32,
    lsp: u16,
) -> usize
    requires { 18 ≤ length out.old }
    ensures { Put (connection_bytes (record { call = call; lsp = record { endpoint = endpoint; tunnel = tunnel; extended = extended; sender = sender; lsp_id = lsp } })) result out.old out.new }
{
    put32(out, 0, endpoint);
    put16(out, 4, call);
    put16(out, 6, tunnel);
    put32(out, 8, extended);
    put32(out, 12, sender);
    put16(out, 16, lsp);
    18
}
