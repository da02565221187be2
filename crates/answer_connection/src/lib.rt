// Path and PathTear.
#![tactic(auto)]

ghost use Rattle.std.specs.Prelude.{◌≡◌, [], true, ◌+◌, ◌≤◌, leb, length};
ghost use Rattle.numbers.specs.Buffer.{at_front};
ghost use Rattle.messages.specs.Inside.{ConnectionInside};
ghost use Rattle.messages.specs.declared.message.Message.TheVariants.{Add, Drop};
ghost use Rattle.reply_objects.specs.Buffer.{least_buffer};
ghost use Rattle.replies.specs.Messages.{path_err_bytes};
ghost use Rattle.table.specs.Lists.{roster};
ghost use Rattle.table.specs.Share.{is_listed};
ghost use Rattle.table.specs.Rules.{rules_hold};
ghost use Rattle.table.specs.Words.{table_of};
ghost use Rattle.spec_calls.specs.Handling.{path_err_for};
ghost use Rattle.outcomes.specs.Outcomes.{handed_back, ruled};

use answers::answer::Answer;
use find_connection::standalone::{find_standalone, look_standalone};
use find_connection::under::{find_under, look_under};
use messages::message::Connection;
use outcomes::outcome::{Outcome, unanswered};
use outcomes::sending::send_path_err;
use table::layout::Words;
use table_words::head::address;
use table_words::ids::is_no_call;
use update_connection::{add_standalone, add_under, customer_of, remove_standalone, remove_under};

// A PathErr goes out; the table stays. Here and below, the message's parts lie within it, as its reading promises, and
// the buffer has answer 2's room.
fn path_refused(t: &Words, msg: &[u8], c: Connection, a: Answer, reply: &mut [u8]) -> Outcome
    requires { ConnectionInside msg.now c × (least_buffer ≤ length reply.old) }
    ensures { (result.answer ≡ a) × (result.length ≡ length (path_err_bytes msg.now (path_err_for (table_of t.now).address c a))) × (reply.new ≡ at_front (path_err_bytes msg.now (path_err_for (table_of t.now).address c a)) reply.old) }
{
    let length = send_path_err(address(t), msg, c, a, reply);
    Outcome { answer: a, length }
}

// Four connections already, some of them under calls and some of Call ID 0.
fn is_full(under: usize, standalone: usize) -> bool
    ensures { result ≡ leb 4 (under + standalone) }
{
    if 4 <= under {
        return true;
    }
    4 - under <= standalone
}

// 14, 24, 35, 37, 23. The rules hold and the sender is listed, so that there is a place for a connection that may be
// added.
pub fn add_connection(t: &mut Words, msg: &[u8], c: Connection, reply: &mut [u8]) -> Outcome
    requires { (rules_hold (table_of t.old) ≡ true) × (is_listed (roster (table_of t.old)) c.lsp.sender ≡ true) × ConnectionInside msg.now c × (least_buffer ≤ length reply.old) }
    ensures { handed_back result (table_of t.new) reply.new ≡ ruled (table_of t.old) msg.now reply.old (Add c) }
{
    let u = look_under(t, c);
    let l = look_standalone(t, c);
    if u.other | l.other {
        return unanswered(Answer::UnderOtherCall);
    }
    if u.held | l.held {
        return unanswered(Answer::ConnectionAlreadyHeld);
    }
    let none = is_no_call(c.call);
    if !none & u.slot.is_none() {
        return path_refused(t, msg, c, Answer::PathUnknownCall, reply);
    }
    if is_full(u.four, l.four) {
        return path_refused(t, msg, c, Answer::NoPlaceLeft, reply);
    }
    match u.slot {
        Some(slot) if !none => add_under(t, slot, c.lsp),
        _ => {
            let k = customer_of(t, c.lsp.sender);
            add_standalone(t, k, c.lsp);
        }
    }
    unanswered(Answer::ConnectionAdded)
}

// 15, 25, by the connection without its Call ID. Nothing is sent back, so the message's bytes are not needed.
pub fn drop_connection(t: &mut Words, c: Connection, reply: &mut [u8]) -> Outcome
    requires { rules_hold (table_of t.old) ≡ true }
    ensures { handed_back result (table_of t.new) reply.new ≡ ruled (table_of t.old) [] reply.old (Drop c) }
{
    if let Some(slot) = find_under(t, c.lsp) {
        remove_under(t, slot, c.lsp);
        return unanswered(Answer::ConnectionRemoved);
    }
    if let Some(k) = find_standalone(t, c.lsp) {
        remove_standalone(t, k, c.lsp);
        return unanswered(Answer::ConnectionRemoved);
    }
    unanswered(Answer::NotHeld)
}
