// The two replies, filled in from the request, the answer and what the node says of itself: its address, and its epoch
// and next identifier.
ghost use Rattle.std.specs.Prelude.{◌≡◌, ◌≤◌, length};
ghost use Rattle.numbers.specs.Buffer.{at_front};
ghost use Rattle.messages.specs.Inside.{ConnectionInside};
ghost use Rattle.reply_objects.specs.Buffer.{least_buffer};
ghost use Rattle.replies.specs.Messages.{path_err_bytes};
ghost use Rattle.spec_calls.specs.Handling.{error_for, notify_for, path_err_for};
ghost use Rattle.outcomes.specs.Sending.{sent_bytes};

use crate::request::{MadeIds, Request};
use answers::answer::{Answer, row_of};
use messages::message::{CallRequest, Connection};
use objects::fields::MessageId;
use replies::notify::{Notify, put_notify, put_notify_made};
use replies::path_err::{PathErr, put_path_err};
use reply_objects::writers::ErrorSpec;

fn error_for(node: u32, a: Answer) -> ErrorSpec
    ensures { result ≡ error_for node a }
{
    let row = row_of(a);
    ErrorSpec {
        node,
        code: row.code,
        value: row.value,
    }
}

fn notify_for(node: u32, own: MessageId, q: CallRequest, status: u32, a: Answer) -> Notify
    ensures { result ≡ notify_for node own q status a }
{
    let error = error_for(node, a);
    let acknowledged = q.sequence;
    let session = q.session;
    let attribute = q.attribute;
    let template = q.template;
    Notify {
        acknowledged,
        own,
        error,
        session,
        status,
        attribute,
        template,
    }
}

// A Notify that answers a request, with the IDs of the call that the node made for it, if it did. Here and below, the
// buffer has answer 2's room.
// Kept: that stands in each contract, as a struct around the `&mut [u8]` that C lends would be taken apart again for each
// of `replies`' writers, which take slices.
pub fn send_notify(
    node: u32,
    own: MessageId,
    r: Request,
    status: u32,
    a: Answer,
    made: Option<MadeIds>,
    reply: &mut [u8],
) -> usize
    requires { least_buffer ≤ length reply.old }
    ensures { (result ≡ length (sent_bytes r.entry.msg.now (notify_for node own r.entry.q status a) made.entry)) × (reply.new ≡ at_front (sent_bytes r.entry.msg.now (notify_for node own r.entry.q status a) made.entry) reply.old) }
{
    let n = notify_for(node, own, r.q, status, a);
    match made {
        None => put_notify(reply, r.msg, n),
        Some(m) => put_notify_made(reply, r.msg, n, m.call, m.name),
    }
}

// The connection's parts lie within the message, as its reading promises.
pub fn send_path_err(node: u32, msg: &[u8], c: Connection, a: Answer, reply: &mut [u8]) -> usize
    requires { ConnectionInside msg.now c × (least_buffer ≤ length reply.old) }
    ensures { (result ≡ length (path_err_bytes msg.now (path_err_for node c a))) × (reply.new ≡ at_front (path_err_bytes msg.now (path_err_for node c a)) reply.old) }
{
    let error = error_for(node, a);
    let session = c.session;
    let template = c.template;
    let e = PathErr {
        session,
        error,
        template,
    };
    put_path_err(reply, msg, e)
}
