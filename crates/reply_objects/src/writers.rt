// The writers of a reply's header and objects. Each writes at the front of the slice that it is
// lent, which is what remains of the reply buffer, and answers how many bytes that were.
//
// Each asks for room: the node tests once, before it handles a message, that the buffer has room
// for the largest reply (answer 2).
ghost use Rattle.std.specs.Prelude.{◌≡◌, ◌≤◌, length, take};
ghost use Rattle.std.proofs.lemmas.List.Edits.{sets};
ghost use Rattle.numbers.specs.BigEndian.{be16_at, bytes16};
ghost use Rattle.numbers.specs.Buffer.{at_front};
ghost use Rattle.objects.specs.Part.{part_of, Within};
ghost use Rattle.objects.specs.Classes.{message_id, message_id_ack};
ghost use Rattle.reply_objects.specs.Objects.{identifier_bytes, error_spec_bytes, admin_status_bytes};
ghost use Rattle.reply_objects.specs.Header.{header_bytes, checksum_of};

use numbers::big_endian::{put8, put16, put24, put32};
use numbers::checksum::words_sum;
use objects::fields::{MessageId, Part};
use objects::object::{ADMIN_STATUS, ERROR_SPEC, MESSAGE_ID, MESSAGE_ID_ACK};

// What an ERROR_SPEC of ours says.
#[derive(Clone, Copy)]
pub struct ErrorSpec {
    pub node: u32,
    pub code: u8,
    pub value: u16,
}

// Kept: the type's number: the node also sends a type that it never takes.
//
// The common header, its checksum field 0 until `fill_checksum` fills it.
pub fn put_header(out: &mut [u8], kind: u8, len: u16) -> usize
    requires { 8 ≤ length out.old }
    ensures { (result ≡ 8) × (out.new ≡ at_front (header_bytes kind len) out.old) }
{
    put8(out, 0, 16);
    put8(out, 1, kind);
    put16(out, 2, 0);
    put8(out, 4, 255);
    put8(out, 5, 0);
    put16(out, 6, len);
    8
}

// MESSAGE_ID and MESSAGE_ID_ACK have one layout.
fn put_identifier(out: &mut [u8], class: u8, flags: u8, id: MessageId) -> usize
    requires { 12 ≤ length out.old }
    ensures { (result ≡ 12) × (out.new ≡ at_front (identifier_bytes class flags id) out.old) }
{
    put16(out, 0, 12);
    put8(out, 2, class);
    put8(out, 3, 1);
    put8(out, 4, flags);
    put24(out, 5, id.epoch);
    put32(out, 8, id.identifier);
    12
}

// Kept: two functions over one writer: each has a class and flags that its callers need not know.
pub fn put_message_id_ack(out: &mut [u8], id: MessageId) -> usize
    requires { 12 ≤ length out.old }
    ensures { (result ≡ 12) × (out.new ≡ at_front (identifier_bytes message_id_ack 0 id) out.old) }
{
    put_identifier(out, MESSAGE_ID_ACK, 0, id)
}

pub fn put_message_id(out: &mut [u8], id: MessageId) -> usize
    requires { 12 ≤ length out.old }
    ensures { (result ≡ 12) × (out.new ≡ at_front (identifier_bytes message_id 1 id) out.old) }
{
    put_identifier(out, MESSAGE_ID, 1, id)
}

pub fn put_error_spec(out: &mut [u8], e: ErrorSpec) -> usize
    requires { 12 ≤ length out.old }
    ensures { (result ≡ 12) × (out.new ≡ at_front (error_spec_bytes e) out.old) }
{
    put16(out, 0, 12);
    put8(out, 2, ERROR_SPEC);
    put8(out, 3, 1);
    put32(out, 4, e.node);
    put8(out, 8, 0);
    put8(out, 9, e.code);
    put16(out, 10, e.value);
    12
}

pub fn put_admin_status(out: &mut [u8], bits: u32) -> usize
    requires { 8 ≤ length out.old }
    ensures { (result ≡ 8) × (out.new ≡ at_front (admin_status_bytes bits) out.old) }
{
    put16(out, 0, 8);
    put8(out, 2, ADMIN_STATUS);
    put8(out, 3, 1);
    put32(out, 4, bits);
    8
}

// Bytes as they are, made beside the reply or a part of a message.
// Kept: a loop over places. `copy_from_slice` calls memmove, a name that the static library did not need from outside.
pub fn put_bytes(out: &mut [u8], bytes: &[u8]) -> usize
    requires { length bytes.now ≤ length out.old }
    ensures { (result ≡ length bytes.now) × (out.new ≡ at_front bytes.now out.old) }
{
    for i in 0..bytes.len() {
        out[i] = bytes[i];
    }
    bytes.len()
}

// A part of a message as it stands there: SESSION, SESSION_ATTRIBUTE or SENDER_TEMPLATE as received, reserved bits and
// padding included.
pub fn put_received(out: &mut [u8], msg: &[u8], p: Part) -> usize
    requires { (Within msg.now p) × (p.size ≤ length out.old) }
    ensures { (result ≡ p.size) × (out.new ≡ at_front (part_of msg.now p) out.old) }
{
    put_bytes(out, &msg[p.at..p.at + p.size])
}

// Fills the checksum field of the message of n bytes at the front of a reply buffer. The field is free, as `put_header`
// leaves it: what stood there would be counted.
pub fn fill_checksum(reply: &mut [u8], n: usize)
    requires { (8 ≤ n) × (n ≤ 65535) × (n ≤ length reply.old) × (be16_at reply.old 2 ≡ 0) }
    ensures { reply.new ≡ sets reply.old 2 (bytes16 (checksum_of (take n reply.old))) }
{
    let sum = words_sum(&reply[..n]);
    let checksum = 65535 - sum;
    if checksum == 0 {
        put16(reply, 2, 65535);
    } else {
        put16(reply, 2, checksum);
    }
}
