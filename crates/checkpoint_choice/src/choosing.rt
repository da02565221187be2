// Which of the calls of one pair and long Call ID is kept. What is asked of each record is computed once, into arrays:
// a checkpoint has up to 4,095 calls and 65,535 connections. A record is compared with those of its chain alone, where
// they stand in the checkpoint.
ghost use Rattle.std.specs.Prelude.{◌≡◌, true, ◌+◌, ◌*◌, ◌<◌, ◌≤◌, length, replicate};
ghost use Rattle.lists.specs.Count.{bit};
ghost use Rattle.table.specs.Lists.{ids_of};
ghost use Rattle.table.specs.Rules.{same_long, rules_hold};
ghost use Rattle.table.specs.Words.{table_of};
ghost use Rattle.spec_checkpoint.specs.Layout.{call_record};
ghost use Rattle.spec_checkpoint.specs.Salvage.{sound_alone};
ghost use Rattle.checkpoint_records.specs.Record.{read_of};
ghost use Rattle.checkpoint_choice.specs.Ranked.{Filled, is_better, is_best};
ghost use Rattle.checkpoint_choice.specs.LongChain.{long_chain, chain_of, LongChains};

use checkpoint_chains::{Factors, mixed, spread};
use checkpoint_records::call::CallRecord;
use checkpoint_records::calls::CallRecords;
use checkpoint_salvage::placing::sound_alone;
use table::layout::Words;

// 1 for each record that is sound alone: in a fresh table, which keeps the rules and has no call. The caller lends the
// flags, to save stack: what they hold before does not matter.
pub fn sound_flags(t: &Words, c: CallRecords, flags: &mut [u8; 4096])
    requires { (rules_hold (table_of t.now) ≡ true) × ((table_of t.now).occupied ≡ replicate 4 0) }
    ensures { Filled (λ j. bit (sound_alone (table_of t.now) (call_record c.entry.bytes.now j))) flags.new c.entry.calls }
{
    for i in 0..c.calls {
        flags[i] = u8::from(sound_alone(t, c.call(i)));
    }
}

// Two records have the same pair and long Call ID.
fn same_long(r: CallRecord, q: CallRecord) -> bool
    ensures { result ≡ same_long (ids_of (read_of r.entry).call) (ids_of (read_of q.entry).call) }
{
    let pair = (r.endpoint() == q.endpoint()) & (r.sender() == q.sender());
    pair && r.name() == q.name()
}

// Record j is kept rather than record i. Names are compared last.
#[tactic(auto, unfolding(crate::specs::Ranked::is_better))]
fn is_better(c: CallRecords, sound: &[u8; 4096], named: &[u16; 4096], i: usize, j: usize) -> bool
    requires { (i < c.calls) × (j < c.calls) }
    ensures { result ≡ is_better c.entry.bytes.now sound.now named.now i j }
{
    let m = named[i];
    let n = named[j];
    let ahead = (sound[j] == 1) & ((m < n) | ((m == n) & (j < i)));
    ahead && same_long(c.call(j), c.call(i))
}

// The chain of a record's pair and long Call ID, one of 1,024.
fn long_chain(f: Factors, r: CallRecord) -> usize
    ensures { (result ≡ long_chain f (ids_of (read_of r.entry).call)) × (result < 1024) }
{
    let name = r.name();
    let mut sum: u32 = 0;
    for b in name {
        sum = mixed(f, sum, u32::from(*b));
    }
    spread(f, r.endpoint(), r.sender(), sum, 0) / 2
}

// The flag of the records that go into the chains.
const CHAINED: u8 = 1;

// The records that are sound in chains by pair and long Call ID, the last record first, so that a walk meets the first
// record first, the one kept of those that are named alike. One that is not sound is never better than another: no walk
// need pass it. Place k in the chains is for record c.calls - 1 - k. The caller lends heads of zeros, and links: what
// these hold before does not matter.
pub fn long_chains(
    c: CallRecords,
    f: Factors,
    sound: &[u8; 4096],
    heads: &mut [u16; 1024],
    links: &mut [u16; 4096],
)
    requires { heads.old ≡ replicate 1024 0 }
    ensures { LongChains f c.entry.bytes.now sound.now heads.new links.new c.entry.calls }
{
    for k in 0..c.calls {
        let i = c.calls - 1 - k;
        if sound[i] == CHAINED {
            let m = long_chain(f, c.call(i));
            links[k] = heads[m];
            heads[m] = (k + 1) as u16;
        }
    }
}

// Record i is kept. Whoever is better is sound and has the same pair and long Call ID, so that the walk through the
// chain meets it. The chains are those that `long_chains` made.
// Kept: a walk along links, which has no index to count. They are numbers, 0 for none: an `Option` in each of the 5,120
// places would take twice the stack.
pub fn is_best(
    c: CallRecords,
    f: Factors,
    heads: &[u16; 1024],
    links: &[u16; 4096],
    sound: &[u8; 4096],
    named: &[u16; 4096],
    i: usize,
) -> bool
    requires { (i < c.calls) × LongChains f c.bytes.now sound.now heads.now links.now c.calls }
    ensures { result ≡ is_best c.entry.bytes.now sound.now named.now c.entry.calls i }
{
    if sound[i] != 1 {
        return false;
    }
    let mut e = usize::from(heads[long_chain(f, c.call(i))]);
    while e != 0 {
        if is_better(c, sound, named, i, c.calls - e) {
            return false;
        }
        e = usize::from(links[e - 1]);
    }
    true
}
