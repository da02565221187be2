// SESSION and SESSION_ATTRIBUTE with the IDs that the node made for a request without names (02, A6). All else is as
// received. As in `writers`, each is written at the front of the slice that is lent, and the answer is how many bytes.
ghost use Rattle.std.specs.Prelude.{◌≡◌, ◌+◌, ◌≤◌, length};
ghost use Rattle.numbers.specs.Buffer.{at_front};
ghost use Rattle.objects.specs.Forms.{rounded_up_to4};
ghost use Rattle.objects.specs.Part.{part_of, Within};
ghost use Rattle.reply_objects.specs.Objects.{session_with, attribute_front, attribute_with};

use crate::writers::{put_bytes, put_received};
use numbers::big_endian::{put8, put16};
use objects::fields::Part;
use objects::object::SESSION_ATTRIBUTE;

// The received SESSION with another Call ID.
pub fn put_session_with(out: &mut [u8], msg: &[u8], p: Part, call: u16) -> usize
    requires { (Within msg.now p) × (p.size ≡ 16) × (16 ≤ length out.old) }
    ensures { (result ≡ 16) × (out.new ≡ at_front (session_with (part_of msg.now p) call) out.old) }
{
    let n = put_received(out, msg, p);
    put16(out, 8, call);
    n
}

// The eight bytes before the name.
fn put_attribute_front(out: &mut [u8], msg: &[u8], p: Part, size: usize) -> usize
    requires { (Within msg.now p) × (8 ≤ p.size) × (size ≤ 32) × (8 ≤ length out.old) }
    ensures { (result ≡ 8) × (out.new ≡ at_front (attribute_front (part_of msg.now p) size) out.old) }
{
    let at = p.at;
    put16(out, 0, (8 + (size + 3) / 4 * 4) as u16);
    put8(out, 2, SESSION_ATTRIBUTE);
    put8(out, 3, 7);
    put8(out, 4, msg[at + 4]);
    put8(out, 5, msg[at + 5]);
    put8(out, 6, msg[at + 6]);
    put8(out, 7, size as u8);
    8
}

// The received SESSION_ATTRIBUTE with another name, and zeros behind it.
pub fn put_attribute_with(out: &mut [u8], msg: &[u8], p: Part, name: &[u8]) -> usize
    requires { (Within msg.now p) × (8 ≤ p.size) × (length name.now ≤ 32) × (8 + rounded_up_to4 (length name.now) ≤ length out.old) }
    ensures { (result ≡ 8 + rounded_up_to4 (length name.now)) × (result ≡ length (attribute_with (part_of msg.now p) name.now)) × (out.new ≡ at_front (attribute_with (part_of msg.now p) name.now) out.old) }
{
    let size = name.len();
    let padding = (size + 3) / 4 * 4 - size;
    let a = put_attribute_front(out, msg, p, size);
    let b = a + put_bytes(&mut out[a..], name);
    b + put_bytes(&mut out[b..], &[0; 3][..padding])
}
