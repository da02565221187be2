// Reads a roster: any bytes get an answer, and the lent table becomes the one that goes with it.
#![tactic(auto)]

ghost use Rattle.std.specs.Prelude.{◌≡◌, ◌+◌, ◌*◌, ◌≤◌, ◌<◌, length, MatchResult};
ghost use Rattle.lists.specs.Count.{has};
ghost use Rattle.table.specs.Zeros.{empty_table};
ghost use Rattle.table.specs.Share.{is_at};
ghost use Rattle.table.specs.Roster.{form_in, customers_in, guarantee_in, limit_in, spare_in, shares_in, terms_in, records_in, records_answer, roster_answer, fresh_table, table_for};
ghost use Rattle.table.specs.Words.{table_of};

use numbers::big_endian::{get16, get24, get32};
use table::answer::{RosterFault, roster_number};
use table::layout::Words;
use table::share::bad_share;
use table::total::total_for;
use table_words::customers::put_terms;
use table_words::head::set_roster;
use table_words::whole::clear_table;

// A record's guarantee, limit and spare bits, out of the 16 bits behind its address: two numbers of seven bits and two
// spare ones in form 1, two numbers of eight bits in form 2.
#[tactic(auto, unfolding(table::specs::Roster::guarantee_in))]
fn guarantee_in(form: u8, shares: u16) -> u16
    ensures { (result ≡ guarantee_in form shares) × (result < 256) }
{
    if form == 2 {
        shares / 256
    } else {
        shares / 512
    }
}

#[tactic(auto, unfolding(table::specs::Roster::limit_in))]
fn limit_in(form: u8, shares: u16) -> u16
    ensures { result ≡ limit_in form shares }
{
    if form == 2 {
        shares % 256
    } else {
        shares / 4 % 128
    }
}

#[tactic(auto, unfolding(table::specs::Roster::spare_in))]
fn spare_in(form: u8, shares: u16) -> u16
    ensures { result ≡ spare_in form shares }
{
    if form == 2 { 0 } else { shares % 4 }
}

// What a record says.
#[derive(Clone, Copy)]
struct Record {
    address: u32,
    guarantee: u32,
    limit: u32,
    spare: u16,
}

// A roster of a good form and length: its records lie within its bytes.
#[derive(Clone, Copy)]
struct Roster<'a> {
    bytes: &'a [u8],
    form: u8,
    count: u8,
    ghost form_is: { form ≡ form_in bytes.now },
    ghost count_is: { count ≡ customers_in bytes.now },
    ghost within: { (count ≤ 8) × (length bytes.now ≡ 8 + 6 * count) },
}

impl<'a> Roster<'a> {
    // The roster of these bytes, by its fixed part and its length.
    fn new(s: &'a [u8]) -> Result<Self, RosterFault>
        ensures { MatchResult result (λ r. (r.bytes.now ≡ s.now) × (roster_answer s.now ≡ records_answer s.now 0 r.count)) (λ f. roster_answer s.now ≡ Err f) }
    {
        if s.len() < 8 {
            return Err(RosterFault::Short);
        }
        let form = s[0] / 16;
        let count = s[0] % 16;
        if !((form == 1) | (form == 2)) | (count == 0) | (8 < count) {
            return Err(RosterFault::BadForm);
        }
        if s.len() != 8 + 6 * usize::from(count) {
            return Err(RosterFault::Length);
        }
        Ok(Roster {
            bytes: s,
            form,
            count,
        })
    }

    fn record(&self, k: usize) -> Record
        requires { k < self.now.count }
        ensures { (result.address ≡ (terms_in self.now.bytes.now k).address) × (result.guarantee ≡ (terms_in self.now.bytes.now k).guarantee) × (result.limit ≡ (terms_in self.now.bytes.now k).limit) × (result.spare ≡ spare_in (form_in self.now.bytes.now) (shares_in self.now.bytes.now k)) × (result.guarantee < 256) }
    {
        let shares = get16(self.bytes, 12 + 6 * k);
        Record {
            address: get32(self.bytes, 8 + 6 * k),
            guarantee: u32::from(guarantee_in(self.form, shares)),
            limit: u32::from(limit_in(self.form, shares)),
            spare: spare_in(self.form, shares),
        }
    }

    // An address stands in one of the first k records.
    fn listed_before(&self, k: usize, address: u32) -> bool
        requires { k < self.now.count }
        ensures { result ≡ has (is_at address) (records_in self.now.bytes.now k) }
    {
        let mut found = false;
        for j in 0..k {
            found |= address == get32(self.bytes, 8 + 6 * j);
        }
        found
    }

    // The records front to back, then the sum of the guarantees.
    fn check(&self) -> Result<(), RosterFault>
        ensures { result ≡ records_answer self.now.bytes.now 0 self.now.count }
    {
        let total = total_for(u32::from(self.form));
        let mut sum = 0;
        for k in 0..usize::from(self.count) {
            let r = self.record(k);
            if r.spare != 0 {
                return Err(RosterFault::SpareBits);
            }
            if bad_share(total, r.guarantee as usize, r.limit as usize) {
                return Err(RosterFault::Share);
            }
            if self.listed_before(k, r.address) {
                return Err(RosterFault::Repeated);
            }
            sum += r.guarantee as usize;
        }
        if total < sum {
            return Err(RosterFault::Guarantees);
        }
        Ok(())
    }

    // The roster as read, into an empty table.
    fn put(&self, t: &mut Words)
        requires { table_of t.old ≡ empty_table }
        ensures { table_of t.new ≡ fresh_table self.now.bytes.now }
    {
        for k in 0..usize::from(self.count) {
            let r = self.record(k);
            put_terms(t, k, r.address, r.guarantee, r.limit);
        }
        set_roster(
            t,
            get32(self.bytes, 1),
            get24(self.bytes, 5),
            u32::from(self.count),
            u32::from(self.form),
        )
    }
}

// The answer to a roster of any bytes. The table is then the fresh one, or after a refusal the empty one, whatever it held.
pub fn read_roster(t: &mut Words, s: &[u8]) -> Result<(), RosterFault>
    ensures { (result ≡ roster_answer s.now) × (table_of t.new ≡ table_for (roster_answer s.now) s.now) }
{
    clear_table(t);
    let roster = Roster::new(s)?;
    let answer = roster.check();
    if roster_number(answer) == 0 {
        roster.put(t);
    }
    answer
}
