// A call opened, closed, refreshed; an own identifier taken.
ghost use Rattle.std.specs.Prelude.{◌≡◌, true, false, ◌<◌, ◌≤◌, replicate};
ghost use Rattle.numbers.specs.Buffer.{at_front};
ghost use Rattle.objects.specs.Part.{Within};
ghost use Rattle.table.specs.Total.{slots};
ghost use Rattle.table.specs.Word.{lowest_free, with_used};
ghost use Rattle.table.specs.Stores.{with_slot};
ghost use Rattle.table.specs.Words.{name_at_word, call_at_word, table_of};
ghost use Rattle.spec_changes.specs.Calls.{opened, freed, refreshed_at, identifier_taken};
ghost use Rattle.spec_calls.specs.CallRules.{ids_in};
ghost use Rattle.spec_calls.specs.Made.{made_name, made_ids};
ghost use Rattle.update_call.specs.Words.{new_call};

use messages::message::CallRequest;
use objects::fields::{CallId, MessageId};
use occupancy::{mark_free, mark_used};
use table::identifier::identifier_after;
use table::layout::Words;
use table_words::calls::{CallHead, CallWord, call_words, put_refreshed, put_slot};
use table_words::head::{next, set_next, time};
use table_words::names::name_words;

// The words of a new call, without connections.
fn call_with(
    q: CallRequest,
    refreshed: u32,
    request: MessageId,
    id: CallId,
    made: u32,
    size: u32,
    name: &[u32; 8],
) -> [u32; 32]
    ensures { call_at_word result 0 ≡ new_call q refreshed request id.0 made size (name_at_word name.now 0) }
{
    let c = CallHead {
        endpoint: q.endpoint,
        sender: q.sender,
        refreshed,
        epoch: request.epoch,
        identifier: request.identifier,
        id: CallWord(id.0 as u32),
        made,
        size,
    };
    call_words(c, name)
}

// Here and below, into the lowest free slot. The rules leave one free where a call may be opened.
fn fill_slot(t: &mut Words, slot: usize, call: &[u32; 32])
    requires { (slot ≡ lowest_free (table_of t.old).occupied) × (slot < slots) }
    ensures { table_of t.new ≡ with_slot (table_of t.old) (with_used (table_of t.old).occupied (lowest_free (table_of t.old).occupied)) (lowest_free (table_of t.old).occupied) (call_at_word call.now 0) }
{
    put_slot(t, slot, call);
    mark_used(t, slot);
}

// A request's call, opened at the node's time. Its name lies within the message and fits the slot: the reading promises that.
pub fn open_named(t: &mut Words, slot: usize, msg: &[u8], q: CallRequest)
    requires { Within msg.now q.name × (q.name.size ≤ 32) × (slot ≡ lowest_free (table_of t.old).occupied) × (slot < slots) }
    ensures { table_of t.new ≡ opened (table_of t.old) (record { ids = ids_in msg.now q; made = false; request = record { epoch = 0; identifier = 0 } }) }
{
    let name = name_words(msg, q.name.at, q.name.size);
    let none = MessageId {
        epoch: 0,
        identifier: 0,
    };
    let opened = time(t);
    let call = call_with(q, opened, none, q.call, 0, q.name.size as u32, &name);
    fill_slot(t, slot, &call);
}

// The call that the node makes for a request, under the name that is made of its ID.
pub fn open_made(t: &mut Words, slot: usize, q: CallRequest, id: CallId, name: &[u32; 8])
    requires { (name_at_word name.now 0 ≡ at_front (made_name q.endpoint q.sender id.0) (replicate 32 0)) × (slot ≡ lowest_free (table_of t.old).occupied) × (slot < slots) }
    ensures { table_of t.new ≡ opened (table_of t.old) (record { ids = made_ids q.endpoint q.sender id.0; made = true; request = q.sequence }) }
{
    let opened = time(t);
    let call = call_with(q, opened, q.sequence, id, 1, 20, name);
    fill_slot(t, slot, &call);
}

// A slot free, with zeros in it, whatever it was.
pub fn close_slot(t: &mut Words, slot: usize)
    requires { slot < slots }
    ensures { table_of t.new ≡ freed (table_of t.old) slot }
{
    let zeros = [0u32; 32];
    put_slot(t, slot, &zeros);
    mark_free(t, slot);
}

// The slot's call is refreshed: it holds the node's time. Whoever asks has found it there.
pub fn refresh_slot(t: &mut Words, slot: usize)
    requires { slot < slots }
    ensures { table_of t.new ≡ refreshed_at (table_of t.old) slot }
{
    let refreshed = time(t);
    put_refreshed(t, slot, refreshed);
}

pub fn take_identifier(t: &mut Words)
    ensures { table_of t.new ≡ identifier_taken (table_of t.old) }
{
    let n = next(t);
    set_next(t, identifier_after(n));
}
