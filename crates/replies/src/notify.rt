// A Notify, written at the front of the reply buffer.
ghost use Rattle.std.specs.Prelude.{◌≡◌, ◌++◌, ◌+◌, ◌≤◌, length};
ghost use Rattle.numbers.specs.Buffer.{at_front};
ghost use Rattle.reply_objects.specs.Header.{header_bytes, with_checksum};
ghost use Rattle.replies.specs.Messages.{NotifyFits, ObjectsFit, notify_front, notify_with, notify_bytes, notify_made_bytes};

use objects::fields::{MessageId, Part};
use reply_objects::made::{put_attribute_with, put_session_with};
use reply_objects::writers::{
    ErrorSpec, fill_checksum, put_admin_status, put_bytes, put_error_spec, put_header,
    put_message_id, put_message_id_ack, put_received,
};

const NOTIFY: u8 = 21;

// What a Notify says: `acknowledged` is the received MESSAGE_ID, `own` the node's.
#[derive(Clone, Copy)]
pub struct Notify {
    pub acknowledged: MessageId,
    pub own: MessageId,
    pub error: ErrorSpec,
    pub session: Part,
    pub status: u32,
    pub attribute: Part,
    pub template: Part,
}

// The header of a message of this length, and what comes before SESSION.
fn put_notify_front(reply: &mut [u8], n: Notify, len: u16) -> usize
    requires { 44 ≤ length reply.old }
    ensures { (result ≡ 44) × (reply.new ≡ at_front (header_bytes 21 len ++ notify_front n) reply.old) }
{
    let a = put_header(reply, NOTIFY, len);
    let b = a + put_message_id_ack(&mut reply[a..], n.acknowledged);
    let c = b + put_message_id(&mut reply[b..], n.own);
    c + put_error_spec(&mut reply[c..], n.error)
}

// All objects, whatever SESSION and SESSION_ATTRIBUTE are.
fn put_notify_before_checksum(
    reply: &mut [u8],
    msg: &[u8],
    n: Notify,
    session: &[u8],
    attribute: &[u8],
) -> usize
    requires { ObjectsFit msg.now n session.now attribute.now reply.old }
    ensures { (result ≡ 80 + length attribute.now) × (reply.new ≡ at_front (notify_with msg.now n session.now attribute.now) reply.old) }
{
    let len = (80 + attribute.len()) as u16;
    let a = put_notify_front(reply, n, len);
    let b = a + put_bytes(&mut reply[a..], session);
    let c = b + put_admin_status(&mut reply[b..], n.status);
    let d = c + put_bytes(&mut reply[c..], attribute);
    d + put_received(&mut reply[d..], msg, n.template)
}

fn put_notify_with(
    reply: &mut [u8],
    msg: &[u8],
    n: Notify,
    session: &[u8],
    attribute: &[u8],
) -> usize
    requires { ObjectsFit msg.now n session.now attribute.now reply.old }
    ensures { (result ≡ length (with_checksum (notify_with msg.now n session.now attribute.now))) × (reply.new ≡ at_front (with_checksum (notify_with msg.now n session.now attribute.now)) reply.old) }
{
    let len = put_notify_before_checksum(reply, msg, n, session, attribute);
    fill_checksum(reply, len);
    len
}

// What it asks of the parts, the reading of a message promises; the room is answer 2's.
pub fn put_notify(reply: &mut [u8], msg: &[u8], n: Notify) -> usize
    requires { NotifyFits msg.now n reply.old }
    ensures { (result ≡ length (notify_bytes msg.now n)) × (reply.new ≡ at_front (notify_bytes msg.now n) reply.old) }
{
    let s = n.session.at;
    let t = s + n.session.size;
    let a = n.attribute.at;
    let b = a + n.attribute.size;
    put_notify_with(reply, msg, n, &msg[s..t], &msg[a..b])
}

// Kept: a function beside `put_notify`, since this one makes two objects first; they share `put_notify_with`.
//
// The reply to a request without names (02, A6): it carries the call's ID and name. Both objects are made beside the
// reply, so that one function puts the objects of every Notify behind one another.
pub fn put_notify_made(reply: &mut [u8], msg: &[u8], n: Notify, call: u16, name: &[u8]) -> usize
    requires { (NotifyFits msg.now n reply.old) × (length name.now ≤ 32) }
    ensures { (result ≡ length (notify_made_bytes msg.now n call name.now)) × (reply.new ≡ at_front (notify_made_bytes msg.now n call name.now) reply.old) }
{
    let mut session: [u8; 16] = [0; 16];
    let mut attribute: [u8; 40] = [0; 40];
    put_session_with(&mut session, msg, n.session, call);
    let len = put_attribute_with(&mut attribute, msg, n.attribute, name);
    put_notify_with(reply, msg, n, &session, &attribute[..len])
}
