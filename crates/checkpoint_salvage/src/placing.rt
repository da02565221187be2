// One call of a checkpoint: whether it can stand in the table, alone and beside others.
ghost use Rattle.std.specs.Prelude.{◌≡◌, List, cond, true, false, ◌&&◌, ℕ, ◌+◌, ◌*◌, ◌≤◌, ◌<◌, length, replicate};
ghost use Rattle.lists.specs.Count.{has};
ghost use Rattle.objects.specs.Part.{Within};
ghost use Rattle.table.specs.Total.{slots, total_of};
ghost use Rattle.table.specs.Word.{is_used};
ghost use Rattle.table.specs.Lists.{ids_of, entries};
ghost use Rattle.table.specs.Rules.{same_request, valid_ids, request_tidy, call_free_clear, rules_hold};
ghost use Rattle.table.specs.Words.{table_of};
ghost use Rattle.spec_calls.specs.CallRules.{ids_in, short_in_use};
ghost use Rattle.spec_checkpoint.specs.Layout.{record_entry};
ghost use Rattle.spec_checkpoint.specs.Salvage.{placed, sound_alone, call_fits};
ghost use Rattle.checkpoint_records.specs.Record.{read_of};

use checkpoint_records::call::CallRecord;
use expiry::raise_time;
use find_call::made::find_made;
use find_call::request::look_up;
use find_call::share::{listing_of, share_used_up};
use messages::message::CallRequest;
use numbers::search::zeros;
use objects::fields::{CallId, MessageId, Part};
use occupancy::{is_used, mark_used, used_below};
use table::layout::{REFRESHED, Words};
use table::total::total_for;
use table_words::calls::{call_head, put_slot};
use table_words::head::form;
use table_words::ids::is_call;

// A record's call in the slot that it names, one of the table's. No refresh lies after the node's time.
fn place(t: &mut Words, r: CallRecord, slot: usize)
    requires { (slot ≡ (read_of r).slot) × (slot < slots) }
    ensures { table_of t.new ≡ placed (table_of t.old) (read_of r.entry) }
{
    let call = r.words();
    raise_time(t, call[REFRESHED]);
    put_slot(t, slot, &call);
    mark_used(t, slot)
}

// A record has a request's numbers only where it has the mark of a call that the node made. No epoch is too large: it has
// three bytes.
fn request_tidy(r: CallRecord) -> bool
    ensures { result ≡ request_tidy (read_of r.entry).call }
{
    let none = (r.epoch() == 0) & (r.identifier() == 0);
    (r.made() == 1) | none
}

// A record's numbers are those of a call: a Call ID other than 0, a name of 1 to 32 bytes that ends in a byte that is
// not zero, with zeros behind it, and a request only where the node made the call.
fn tidy(r: CallRecord) -> bool
    ensures { result ≡ (valid_ids (read_of r.entry).call && call_free_clear (read_of r.entry).call) }
{
    let at = r.start() + 12;
    let size = r.size();
    let sized = (0 < size) & (size <= 32);
    if !sized {
        return false;
    }
    let ends = r.bytes[at + size - 1] != 0;
    let clear = zeros(r.bytes, at + size, 32 - size);
    (r.id() != 0) & ends & clear & request_tidy(r)
}

// The IDs of a tidy record as a request has them. There are no objects of a message: those parts are empty.
fn record_request(r: CallRecord) -> CallRequest
    requires { (read_of r).call.size ≤ 32 }
    ensures { (ids_in r.entry.bytes.now result ≡ ids_of (read_of r.entry).call) × Within r.entry.bytes.now result.name × (result.name.size ≤ 32) }
{
    let name = Part {
        at: r.start() + 12,
        size: r.size(),
    };
    CallRequest {
        endpoint: r.endpoint(),
        sender: r.sender(),
        call: CallId(r.id()),
        name,
        sequence: MessageId {
            epoch: 0,
            identifier: 0,
        },
        session: Part { at: 0, size: 0 },
        attribute: Part { at: 0, size: 0 },
        template: Part { at: 0, size: 0 },
    }
}

// The pair has the short Call ID in use. This is asked by itself, and first, so that names are compared only where it is
// not: a checkpoint may have thousands of calls that fail here.
fn short_in_use(t: &Words, endpoint: u32, sender: u32, id: CallId) -> bool
    ensures { (long : List ℕ) → result ≡ short_in_use (entries (table_of t.now)) (record { endpoint = endpoint; sender = sender; short = id.0; long = long }) }
{
    let n = used_below(t);
    let mut found = false;
    for i in 0..n {
        let c = call_head(t, i);
        let pair = (endpoint == c.endpoint) & (sender == c.sender);
        found = found | (is_used(t, i) & (pair & is_call(id, c.id)));
    }
    found
}

// The call of a record that has the mark shares its pair and both numbers with one in the table.
fn request_in_use(t: &Words, r: CallRecord) -> bool
    ensures { result ≡ has (same_request (record_entry (read_of r.entry))) (entries (table_of t.now)) }
{
    if r.made() != 1 {
        return false;
    }
    let request = MessageId {
        epoch: r.epoch(),
        identifier: r.identifier(),
    };
    find_made(t, r.endpoint(), r.sender(), request).is_some()
}

// Whether a record's call could stand in a free slot beside the calls in the table: its numbers are those of a call, its
// sender is listed and has room, neither ID is in use in its pair and, where the node made it, nor is its request. The
// table keeps its rules, so that no other is asked again.
fn stands(t: &Words, r: CallRecord) -> bool
    requires { (rules_hold (table_of t.now) ≡ true) × ((read_of r).slot < total_of (table_of t.now)) × (is_used (table_of t.now).occupied (read_of r).slot ≡ false) }
    ensures { result ≡ rules_hold (placed (table_of t.now) (read_of r.entry)) }
{
    if !tidy(r) {
        return false;
    }
    let q = record_request(r);
    let Some(m) = listing_of(t, q.sender) else {
        return false;
    };
    if short_in_use(t, q.endpoint, q.sender, q.call) {
        return false;
    }
    if request_in_use(t, r) {
        return false;
    }
    if share_used_up(t, q.sender, m) {
        return false;
    }
    let look = look_up(t, r.bytes, q);
    !look.long & !look.short
}

// A record's call could stand in a fresh table by itself. No slot of a fresh table is used.
pub fn sound_alone(t: &Words, r: CallRecord) -> bool
    requires { (rules_hold (table_of t.now) ≡ true) × ((table_of t.now).occupied ≡ replicate 4 0) }
    ensures { result ≡ sound_alone (table_of t.now) (read_of r.entry) }
{
    let slot = r.slot();
    let inside = slot < total_for(form(t));
    if !inside {
        return false;
    }
    stands(t, r)
}

// It fits beside those that are in the table.
fn call_fits(t: &Words, r: CallRecord, slot: usize) -> bool
    requires { (rules_hold (table_of t.now) ≡ true) × (slot ≡ (read_of r).slot) × (slot < total_of (table_of t.now)) }
    ensures { result ≡ call_fits (table_of t.now) (read_of r.entry) }
{
    let used = is_used(t, slot);
    if used {
        return false;
    }
    stands(t, r)
}

// A record's call placed, where it is the one kept of its pair and long Call ID (`best`) and fits. Such a record names
// a slot below the total. The rules hold of a fresh table, and go on to hold with each call that fits.
pub fn with_call(t: &mut Words, best: bool, r: CallRecord)
    requires { (rules_hold (table_of t.old) ≡ true) × (best ≡ true → (read_of r).slot < total_of (table_of t.old)) }
    ensures { table_of t.new ≡ cond (best && call_fits (table_of t.old) (read_of r.entry)) (placed (table_of t.old) (read_of r.entry)) (table_of t.old) }
{
    if !best {
        return;
    }
    let slot = r.slot();
    if call_fits(t, r, slot) {
        place(t, r, slot);
    }
}
