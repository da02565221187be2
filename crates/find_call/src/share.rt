// The roster beside a request: whether its sender is listed, and whether the sender's share is used up.
ghost use Rattle.std.specs.Prelude.{◌≡◌, true, false, MatchOption};
ghost use Rattle.table.specs.Total.{total_of};
ghost use Rattle.table.specs.Lists.{roster, entries};
ghost use Rattle.table.specs.Share.{calls_of, is_listed};
ghost use Rattle.table.specs.Words.{table_of};
ghost use Rattle.spec_calls.specs.CallRules.{share_used_up};
ghost use Rattle.find_call.specs.Listed.{ListingOf};

use occupancy::{is_used, used_below};
use rule_limits::share_sums;
use table::layout::{CUSTOMERS, Words};
use table::total::total_for;
use table_words::calls::call_head;
use table_words::customers::customer_head;
use table_words::head::{form, listed};

// What the roster says of an address that is listed: in which record, its guarantee and its limit.
#[derive(Clone, Copy)]
pub struct Listing {
    pub place: usize,
    pub guarantee: usize,
    pub limit: usize,
}

// Nothing for an address that is not listed.
pub fn listing_of(t: &Words, address: u32) -> Option<Listing>
    ensures { MatchOption result (is_listed (roster (table_of t.now)) address ≡ false)
        (λ m. (is_listed (roster (table_of t.now)) address ≡ true) × ListingOf (table_of t.now) address m) }
{
    let n = listed(t);
    for k in 0..CUSTOMERS {
        let m = customer_head(t, k);
        if (k < n) & (address == m.address) {
            return Some(Listing {
                place: k,
                guarantee: m.guarantee,
                limit: m.limit,
            });
        }
    }
    None
}

// A customer's open calls.
fn calls_of(t: &Words, address: u32) -> usize
    ensures { result ≡ calls_of (entries (table_of t.now)) address }
{
    let mut calls: usize = 0;
    for i in 0..used_below(t) {
        let c = call_head(t, i);
        calls += usize::from(is_used(t, i) & (c.sender == address));
    }
    calls
}

// Answer 34: at the limit, or at the guarantee with no room left.
// The caller has looked the sender up, and hands in what it found: the roster is not searched again.
pub fn share_used_up(t: &Words, sender: u32, m: Listing) -> bool
    requires { ListingOf (table_of t.now) sender m }
    ensures { result ≡ share_used_up (total_of (table_of t.now)) (roster (table_of t.now)) (entries (table_of t.now)) sender }
{
    let calls = calls_of(t, sender);
    let s = share_sums(t);
    (calls == m.limit) | ((m.guarantee <= calls) & (s.sum == total_for(form(t))))
}
