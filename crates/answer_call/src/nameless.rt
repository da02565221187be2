// Open without names (02, A6): the node makes both IDs, and its answer carries them.
ghost use Rattle.std.specs.Prelude.{◌≡◌, true, ◌≤◌, ◌<◌, length};
ghost use Rattle.messages.specs.declared.message.Message.TheVariants.{Open};
ghost use Rattle.reply_objects.specs.Buffer.{least_buffer};
ghost use Rattle.table.specs.Total.{slots};
ghost use Rattle.table.specs.Word.{is_used};
ghost use Rattle.table.specs.Lists.{roster, call_at, ids_of};
ghost use Rattle.table.specs.Share.{is_listed};
ghost use Rattle.table.specs.Rules.{rules_hold};
ghost use Rattle.table.specs.Words.{table_of};
ghost use Rattle.spec_changes.specs.Calls.{refreshed_at};
ghost use Rattle.answers.specs.declared.answer.Answer.TheVariants.{CallAlreadyOpen};
ghost use Rattle.find_call.specs.Listed.{ListingOf};
ghost use Rattle.outcomes.specs.Outcomes.{handed_back, ruled};
ghost use Rattle.answer_call.specs.Notified.{made_bytes, Notified};

use crate::sending::notified;
use answers::answer::Answer;
use find_call::made::find_made;
use find_call::share::{Listing, share_used_up};
use make_ids::name::{MADE_SIZE, made_name_words, name_bytes};
use make_ids::short::made_short;
use messages::status::C;
use occupancy::lowest_free;
use outcomes::outcome::Outcome;
use outcomes::request::{MadeIds, Request};
use table::layout::Words;
use table_words::calls::call_head;
use table_words::names::name_byte;
use update_call::slots::{open_made, refresh_slot};

// All 32 bytes of a slot's name. Whoever asks says why the slot is one of the table's.
fn slot_name(t: &Words, i: usize) -> [u8; 32]
    requires { i < slots }
    ensures { result ≡ (call_at (table_of t.now) i).name }
{
    let mut name = [0u8; 32];
    for k in 0..32 {
        name[k] = name_byte(t, i, k);
    }
    name
}

// 21, with the IDs of the call in a used slot, which is refreshed: the rules hold, so that they fit their fields.
fn answered_again(t: &mut Words, r: Request, slot: usize, reply: &mut [u8]) -> Outcome
    requires { (rules_hold (table_of t.old) ≡ true) × (slot < slots) × (is_used (table_of t.old).occupied slot ≡ true) × (least_buffer ≤ length reply.old) }
    ensures { Notified (refreshed_at (table_of t.old) slot) (made_bytes (table_of t.old) r.entry.msg.now r.entry.q CallAlreadyOpen (ids_of (call_at (table_of t.old) slot)).short (ids_of (call_at (table_of t.old) slot)).long) CallAlreadyOpen reply.old result (table_of t.new) reply.new }
{
    let c = call_head(t, slot);
    let name = slot_name(t, slot);
    let call = c.id.0 as u16;
    refresh_slot(t, slot);
    let made = MadeIds {
        call,
        name: &name[..c.size as usize],
    };
    notified(t, r, C, Answer::CallAlreadyOpen, Some(made), reply)
}

// 21, 34, 20. The rules hold and the sender is listed, so that a call that may be opened has a free slot; its listing is
// handed in, since the caller has looked it up. The request has no name.
pub fn open_nameless(t: &mut Words, r: Request, listing: Listing, reply: &mut [u8]) -> Outcome
    requires { (rules_hold (table_of t.old) ≡ true) × (is_listed (roster (table_of t.old)) r.q.sender ≡ true) × (r.q.name.size ≡ 0) × (least_buffer ≤ length reply.old) × ListingOf (table_of t.old) r.q.sender listing }
    ensures { handed_back result (table_of t.new) reply.new ≡ ruled (table_of t.old) r.entry.msg.now reply.old (Open r.entry.q) }
{
    let q = r.q;
    if let Some(slot) = find_made(t, q.endpoint, q.sender, q.sequence) {
        return answered_again(t, r, slot, reply);
    }
    if share_used_up(t, q.sender, listing) {
        return notified(t, r, C, Answer::NoShare, None, reply);
    }
    let id = made_short(t, q.endpoint, q.sender);
    let words = made_name_words(q.endpoint, q.sender, id);
    let name = name_bytes(&words);
    let slot = lowest_free(t);
    open_made(t, slot, q, id, &words);
    let made = MadeIds {
        call: id.0,
        name: &name[..MADE_SIZE],
    };
    notified(t, r, C, Answer::CallOpened, Some(made), reply)
}
