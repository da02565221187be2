// Open and close by a call's two IDs.
ghost use Rattle.std.specs.Prelude.{◌≡◌, true, ◌≤◌, ◌<◌, length};
ghost use Rattle.messages.specs.Inside.{HasIds};
ghost use Rattle.messages.specs.declared.message.Message.TheVariants.{Open, Close};
ghost use Rattle.reply_objects.specs.Buffer.{least_buffer};
ghost use Rattle.table.specs.Lists.{roster};
ghost use Rattle.table.specs.Share.{is_listed};
ghost use Rattle.table.specs.Rules.{rules_hold};
ghost use Rattle.table.specs.Words.{table_of};
ghost use Rattle.find_call.specs.Listed.{ListingOf};
ghost use Rattle.outcomes.specs.Outcomes.{handed_back, ruled};

use crate::sending::notified;
use answers::answer::Answer;
use find_call::request::look_up;
use find_call::share::{Listing, share_used_up};
use messages::status::{C, D};
use occupancy::lowest_free;
use outcomes::outcome::Outcome;
use outcomes::request::Request;
use table::layout::Words;
use update_call::slots::{close_slot, open_named, refresh_slot};

// 21, which refreshes the call; 31, 30, 34, 20. The rules hold and the sender is listed, so that a call that may be opened
// has a free slot; its listing is handed in, since the caller has looked it up. The request has a name.
pub fn open_call(t: &mut Words, r: Request, listing: Listing, reply: &mut [u8]) -> Outcome
    requires { (rules_hold (table_of t.old) ≡ true) × (is_listed (roster (table_of t.old)) r.q.sender ≡ true) × (0 < r.q.name.size) × (least_buffer ≤ length reply.old) × ListingOf (table_of t.old) r.q.sender listing }
    ensures { handed_back result (table_of t.new) reply.new ≡ ruled (table_of t.old) r.entry.msg.now reply.old (Open r.entry.q) }
{
    let k = look_up(t, r.msg, r.q);
    if let Some(slot) = k.slot {
        refresh_slot(t, slot);
        return notified(t, r, C, Answer::CallAlreadyOpen, None, reply);
    }
    if k.long {
        return notified(t, r, C, Answer::DuplicateCall, None, reply);
    }
    if k.short {
        return notified(t, r, C, Answer::CallIdContention, None, reply);
    }
    if share_used_up(t, r.q.sender, listing) {
        return notified(t, r, C, Answer::NoShare, None, reply);
    }
    let slot = lowest_free(t);
    open_named(t, slot, r.msg, r.q);
    notified(t, r, C, Answer::CallOpened, None, reply)
}

// 33, 32, 22.
pub fn close_call(t: &mut Words, r: Request, reply: &mut [u8]) -> Outcome
    requires { (rules_hold (table_of t.old) ≡ true) × HasIds r.q × (least_buffer ≤ length reply.old) }
    ensures { handed_back result (table_of t.new) reply.new ≡ ruled (table_of t.old) r.entry.msg.now reply.old (Close r.entry.q) }
{
    let k = look_up(t, r.msg, r.q);
    let status = C + D;
    let Some(slot) = k.slot else {
        return notified(t, r, status, Answer::UnknownCall, None, reply);
    };
    if k.busy {
        return notified(t, r, status, Answer::ConnectionsStillExist, None, reply);
    }
    close_slot(t, slot);
    notified(t, r, status, Answer::CallClosed, None, reply)
}
