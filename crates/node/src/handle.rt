// One message of any bytes.
ghost use Rattle.std.specs.Prelude.{◌≡◌, true, ◌≤◌, ◌<◌, length};
ghost use Rattle.messages.specs.Inside.{Inside};
ghost use Rattle.messages.specs.declared.message.Message.TheVariants.{Open};
ghost use Rattle.reply_objects.specs.Buffer.{least_buffer};
ghost use Rattle.table.specs.Lists.{roster};
ghost use Rattle.table.specs.Share.{is_listed};
ghost use Rattle.table.specs.Rules.{rules_hold};
ghost use Rattle.table.specs.Words.{table_of};
ghost use Rattle.spec_changes.specs.Connections.{customer_of};
ghost use Rattle.spec_changes.specs.Last.{last_of};
ghost use Rattle.spec_calls.specs.Late.{is_late_message};
ghost use Rattle.spec_calls.specs.Form.{sender_of};
ghost use Rattle.spec_calls.specs.Handling.{answered_in, handled};
ghost use Rattle.find_call.specs.Listed.{ListingOf};
ghost use Rattle.outcomes.specs.Outcomes.{handed_back, ruled, kept_of, settled};
ghost use Rattle.node.specs.Handed.{Handed};

use answer_call::named::{close_call, open_call};
use answer_call::nameless::open_nameless;
use answer_connection::{add_connection, drop_connection};
use answers::answer::Answer;
use expiry::{Closings, elapse};
use find_call::late::is_late;
use find_call::share::{Listing, listing_of};
use messages::message::Message;
use messages::read::{Received, Refusal, read};
use outcomes::outcome::{Outcome, unanswered};
use outcomes::request::Request;
use reply_objects::LEAST_BUFFER;
use rules::rules_hold;
use table::layout::Words;
use table_words::customers::put_last;

fn sender_of(m: Message) -> u32
    ensures { result ≡ sender_of m }
{
    match m {
        Message::Open(q) => q.sender,
        Message::Close(q) => q.sender,
        Message::Add(c) => c.lsp.sender,
        Message::Drop(c) => c.lsp.sender,
    }
}

// An open with names, or without (02, A6). Here and below, the sender was looked up and is listed.
// Kept: that, the table's rules and the buffer's room stand in each contract: table and buffer are C's plain memory, and a
// type that promised the rules of a table would be broken and made again by each change of it (`opened`, `freed`).
fn open(t: &mut Words, r: Request, listing: Listing, reply: &mut [u8]) -> Outcome
    requires { (rules_hold (table_of t.old) ≡ true) × (is_listed (roster (table_of t.old)) r.q.sender ≡ true) × (least_buffer ≤ length reply.old) × ListingOf (table_of t.old) r.q.sender listing }
    ensures { handed_back result (table_of t.new) reply.new ≡ ruled (table_of t.old) r.entry.msg.now reply.old (Open r.entry.q) }
{
    if r.q.name.size == 0 {
        return open_nameless(t, r, listing, reply);
    }
    open_call(t, r, listing, reply)
}

// A message of no fault, by its kind.
fn handle_message(
    t: &mut Words,
    msg: &[u8],
    m: Message,
    listing: Listing,
    reply: &mut [u8],
) -> Outcome
    requires { (rules_hold (table_of t.old) ≡ true) × (is_listed (roster (table_of t.old)) (sender_of m) ≡ true) × Inside msg.now m × (least_buffer ≤ length reply.old) × ListingOf (table_of t.old) (sender_of m) listing }
    ensures { handed_back result (table_of t.new) reply.new ≡ ruled (table_of t.old) msg.now reply.old m }
{
    match m {
        Message::Open(q) => open(t, Request { msg, q }, listing, reply),
        Message::Close(q) => close_call(t, Request { msg, q }, reply),
        Message::Add(c) => add_connection(t, msg, c, reply),
        Message::Drop(c) => drop_connection(t, c, reply),
    }
}

// Whether a message is late by what its sender's record keeps (02, A8): a Path is compared with nothing.
fn is_late_message(t: &Words, place: usize, m: Message) -> bool
    requires { (place < 8) × (place ≡ customer_of (table_of t.now) (sender_of m)) }
    ensures { result ≡ is_late_message (last_of (table_of t.now)) m }
{
    match m {
        Message::Open(q) => is_late(t, place, q.sequence),
        Message::Close(q) => is_late(t, place, q.sequence),
        Message::Add(c) => false,
        Message::Drop(c) => false,
    }
}

// The MESSAGE_ID of an open or close is kept in its sender's record.
fn keep_message_id(t: &mut Words, place: usize, m: Message)
    requires { (place < 8) × (place ≡ customer_of (table_of t.old) (sender_of m)) }
    ensures { table_of t.new ≡ kept_of m (table_of t.old) }
{
    match m {
        Message::Open(q) => put_last(t, place, q.sequence),
        Message::Close(q) => put_last(t, place, q.sequence),
        Message::Add(c) => {}
        Message::Drop(c) => {}
    }
}

// 16, or what the rules of the message's kind say.
fn handle_listed(
    t: &mut Words,
    msg: &[u8],
    m: Message,
    listing: Listing,
    reply: &mut [u8],
) -> Outcome
    requires { (rules_hold (table_of t.old) ≡ true) × (is_listed (roster (table_of t.old)) (sender_of m) ≡ true) × Inside msg.now m × (least_buffer ≤ length reply.old) × ListingOf (table_of t.old) (sender_of m) listing }
    ensures { handed_back result (table_of t.new) reply.new ≡ settled (table_of t.old) msg.now reply.old m }
{
    if is_late_message(t, listing.place, m) {
        return unanswered(Answer::Late);
    }
    let r = handle_message(t, msg, m, listing, reply);
    keep_message_id(t, listing.place, m);
    r
}

// The tests from 3 on: for a table that keeps the rules, after the closings, and a buffer with answer 2's room, as a
// Bundle's messages will find them.
fn handle_checked(t: &mut Words, msg: &[u8], reply: &mut [u8]) -> Outcome
    requires { (rules_hold (table_of t.old) ≡ true) × (least_buffer ≤ length reply.old) }
    ensures { handed_back result (table_of t.new) reply.new ≡ answered_in (table_of t.old) msg.now reply.old }
{
    match read(msg) {
        Err(Refusal::Misformed { fault, .. }) => unanswered(Answer::Malformed(fault)),
        Err(Refusal::Unfit { fault, sender, .. }) => {
            if listing_of(t, sender).is_some() {
                return unanswered(Answer::Malformed(fault));
            }
            unanswered(Answer::SenderNotListed)
        }
        Ok(Received { message, .. }) => {
            let Some(listing) = listing_of(t, sender_of(message)) else {
                return unanswered(Answer::SenderNotListed);
            };
            handle_listed(t, msg, message, listing, reply)
        }
    }
}

// What handling a message gives back: the answer, the reply's length, 0 where none is sent, and how many calls were closed
// before the message.
// Kept: 0, and no Option, as in `Outcome`.
#[derive(Clone, Copy)]
pub struct Handling {
    pub answer: Answer,
    pub length: usize,
    pub closed: usize,
}

// 1 and 2: nothing is sent, closed or changed.
fn at_once(a: Answer) -> Handling
    ensures { result ≡ record { answer = a; length = 0; closed = 0 } }
{
    Handling {
        answer: a,
        length: 0,
        closed: 0,
    }
}

// Handles a message: any table, any bytes, any buffer, time and period. The row's front lists the calls that were closed
// before the message, slot and address in turn; its words behind them are as they were.
pub fn handle(
    t: &mut Words,
    msg: &[u8],
    reply: &mut [u8],
    at: u32,
    period: u32,
    closings: &mut Closings,
) -> Handling
    ensures { Handed (handled (table_of t.old) msg.now reply.old at period) closings.old result (table_of t.new) reply.new closings.new }
{
    if !rules_hold(t) {
        return at_once(Answer::TableBroken);
    }
    if reply.len() < LEAST_BUFFER {
        return at_once(Answer::BufferTooSmall);
    }
    let closed = elapse(t, at, period, closings);
    let r = handle_checked(t, msg, reply);
    let answer = r.answer;
    Handling {
        answer,
        length: r.length,
        closed,
    }
}
