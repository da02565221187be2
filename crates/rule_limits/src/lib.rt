// The rules on the roster and on how many calls each customer has.
#![tactic(auto)]

ghost use Rattle.std.specs.Prelude.{◌≡◌, true, ◌&&◌, ℕ, ◌<◌, length, get_or, replicate};
ghost use Rattle.lists.specs.Count.{has, sum_of};
ghost use Rattle.lists.specs.Below.{every_below};
ghost use Rattle.table.specs.Total.{slots, total_of};
ghost use Rattle.table.specs.Lists.{roster, entries};
ghost use Rattle.table.specs.Share.{calls_of, S};
ghost use Rattle.table.specs.Rules.{acceptable, roster_holds, over_limit, holds, slots_within_total, senders_listed, within_limits, share_within_total};
ghost use Rattle.table.specs.Words.{table_of};
ghost use Rattle.rule_limits.specs.Apart.{other_address};
ghost use Rattle.rule_limits.specs.Tally.{tallied, addresses_of, calls_each};

use lists::select;
use occupancy::{is_used, marked_below, open_calls, used_below};
use table::layout::Words;
use table::share::bad_share;
use table::total::total_for;
use table_words::calls::call_head;
use table_words::customers::customer_head;
use table_words::head::{address, epoch, form, listed};

// Customer k's address is that of none before it, where both are listed.
#[tactic(auto, using(lists::proofs::Below::every_none, lists::proofs::Below::every_turn))]
fn is_apart(t: &Words, listed: usize, k: usize) -> bool
    requires { (listed ≡ (table_of t.now).listed) × (k < 8) }
    ensures { result ≡ every_below (other_address (table_of t.now) k) k }
{
    let c = customer_head(t, k);
    let mut apart = true;
    for j in 0..k {
        let d = customer_head(t, j);
        apart &= !((j < listed) & ((k < listed) & (d.address == c.address)));
    }
    apart
}

// Good guarantees and limits, addresses listed once, and guarantees that come to no more than the total.
fn is_acceptable(t: &Words) -> bool
    ensures { result ≡ acceptable (total_of (table_of t.now)) (roster (table_of t.now)) }
{
    let total = total_for(form(t));
    let listed = listed(t);
    let mut bad = false;
    let mut apart = true;
    let mut sum = 0;
    for k in 0..8 {
        let c = customer_head(t, k);
        bad |= (k < listed) & bad_share(total, c.guarantee, c.limit);
        apart &= is_apart(t, listed, k);
        sum += select(k < listed, c.guarantee, 0);
    }
    !bad & apart & (sum <= total)
}

// The roster is acceptable, of form 1 or 2, with an epoch of 24 bits; or empty, with form, own address and epoch zero.
pub fn roster_holds(t: &Words) -> bool
    ensures { result ≡ roster_holds (table_of t.now) }
{
    let listed = listed(t);
    if listed == 0 {
        return (form(t) == 0) & (address(t) == 0) & (epoch(t) == 0);
    }
    ((form(t) == 1) | (form(t) == 2)) & (listed <= 8) & (epoch(t) < 0x100_0000) & is_acceptable(t)
}

// One more call of a sender: counted for each customer at that address. No early exit: then the compiler does several
// at a time. No count is at the number of slots yet.
fn tally(counts: &mut [u32; 8], addresses: &[u32; 8], sender: u32)
    requires { (length counts.old ≡ 8) × ((k : ℕ) → k < 8 → get_or counts.old k 0 < slots) }
    ensures { counts.new ≡ tallied counts.old addresses.now sender }
{
    for k in 0..8 {
        counts[k] += u32::from(addresses[k] == sender);
    }
}

// The addresses of the eight roster records, used or not.
fn addresses(t: &Words) -> [u32; 8]
    ensures { result ≡ addresses_of (table_of t.now) }
{
    let mut a = [0u32; 8];
    for k in 0..8 {
        a[k] = customer_head(t, k).address;
    }
    a
}

// The open calls whose sender is a record's address, for each of the eight records. Whoever asks lends zeros.
fn count_calls(counts: &mut [u32; 8], t: &Words)
    requires { counts.old ≡ replicate 8 0 }
    ensures { counts.new ≡ calls_each (table_of t.now) (entries (table_of t.now)) }
{
    let a = addresses(t);
    let n = used_below(t);
    for i in 0..n {
        if is_used(t, i) {
            tally(counts, &a, call_head(t, i).sender);
        }
    }
}

// Whether a customer has more calls than its limit, S, and how many calls have a listed sender.
#[derive(Clone, Copy)]
pub struct Shares {
    pub over: bool,
    pub sum: usize,
    pub known: usize,
}

pub fn share_sums(t: &Words) -> Shares
    ensures { (result.over ≡ has (over_limit (entries (table_of t.now))) (roster (table_of t.now))) × (result.sum ≡ S (roster (table_of t.now)) (entries (table_of t.now))) × (result.known ≡ sum_of (λ c. calls_of (entries (table_of t.now)) c.address) (roster (table_of t.now))) }
{
    let listed = listed(t);
    let mut counts = [0u32; 8];
    count_calls(&mut counts, t);
    let mut over = false;
    let mut sum = 0;
    let mut known = 0;
    for k in 0..8 {
        let m = customer_head(t, k);
        let calls = counts[k] as usize;
        over |= (k < listed) & (m.limit < calls);
        sum += select(k < listed, calls.max(m.guarantee), 0);
        known += select(k < listed, calls, 0);
    }
    Shares { over, sum, known }
}

// No slot is used outside the roster's total: the last mark tells.
pub fn slots_within_total(t: &Words) -> bool
    ensures { result ≡ holds slots_within_total (table_of t.now) }
{
    marked_below(t) <= total_for(form(t))
}

// Every call's sender is listed, no customer has more calls than its limit, and S is at most the total. The roster's
// addresses differ, as `roster_holds` tests first: so the calls of listed senders are counted once each. And no slot
// outside the table is marked as used: so the marks are as many as the calls.
pub fn shares_hold(t: &Words) -> bool
    requires { (roster_holds (table_of t.now) ≡ true) × (holds slots_within_total (table_of t.now) ≡ true) }
    ensures { result ≡ (holds senders_listed (table_of t.now) && holds within_limits (table_of t.now) && holds share_within_total (table_of t.now)) }
{
    let s = share_sums(t);
    (s.known == open_calls(t) as usize) & !s.over & (s.sum <= total_for(form(t)))
}
