// A Notify with the answer goes out, and takes the next own identifier. Here and in the crate, the buffer has answer 2's
// room.
ghost use Rattle.std.specs.Prelude.{◌≤◌, length};
ghost use Rattle.reply_objects.specs.Buffer.{least_buffer};
ghost use Rattle.table.specs.Words.{table_of};
ghost use Rattle.answer_call.specs.Notified.{noted_bytes, Notified};

use answers::answer::Answer;
use objects::fields::MessageId;
use outcomes::outcome::Outcome;
use outcomes::request::{MadeIds, Request};
use outcomes::sending::send_notify;
use table::layout::Words;
use table_words::head::{address, epoch, next};
use update_call::slots::take_identifier;

// With the IDs of the call that the node made, if it did.
pub(crate) fn notified(
    t: &mut Words,
    r: Request,
    status: u32,
    a: Answer,
    made: Option<MadeIds>,
    reply: &mut [u8],
) -> Outcome
    requires { least_buffer ≤ length reply.old }
    ensures { Notified (table_of t.old) (noted_bytes (table_of t.old) r.entry.msg.now r.entry.q status a made.entry) a reply.old result (table_of t.new) reply.new }
{
    let own = MessageId {
        epoch: epoch(t),
        identifier: next(t),
    };
    let node = address(t);
    let length = send_notify(node, own, r, status, a, made, reply);
    take_identifier(t);
    Outcome { answer: a, length }
}
