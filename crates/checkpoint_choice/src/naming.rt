// How many connection records of a checkpoint name each call record, in one pass over the connections. Call records are
// looked up by short ID and pair, in 1,024 chains: a head is one more than the last record of its chain, a link one
// more than the record before, and 0 where there is none. Of the records that have one short ID and pair only the first
// is in a chain: it stands for the others, and connections are counted for it.
ghost use Rattle.std.specs.Prelude.{◌≡◌, ℕ, ◌+◌, ◌*◌, ◌-◌, ◌<◌, ◌≤◌, length, get_or, set, replicate, IfSome};
ghost use Rattle.spec_checkpoint.specs.Layout.{calls_in, call_record, connection_record};
ghost use Rattle.spec_checkpoint.specs.Salvage.{named_by};
ghost use Rattle.checkpoint_records.specs.Record.{read_of};
ghost use Rattle.checkpoint_choice.specs.Ranked.{Filled};
ghost use Rattle.checkpoint_choice.specs.Chained.{short_chain, named_as, has_short, stand_in_for, stand_in_named, Found, Noted, SomeNoted, counted};

use checkpoint_chains::{Factors, spread};
use checkpoint_records::call::CallRecord;
use checkpoint_records::checkpoint::Checkpoint;

// What a call is looked up by: its short ID and its pair.
#[derive(Clone, Copy)]
struct ShortName {
    short: u16,
    endpoint: u32,
    sender: u32,
}

// Those of a call's record.
fn name_of(r: CallRecord) -> ShortName
    ensures { result ≡ named_as (read_of r.entry) }
{
    ShortName {
        short: r.id(),
        endpoint: r.endpoint(),
        sender: r.sender(),
    }
}

// The chain of a short ID and a pair, one of 1,024.
fn short_chain(f: Factors, x: ShortName) -> usize
    ensures { (result ≡ short_chain f x.short x.endpoint x.sender) × (result < 1024) }
{
    spread(f, x.endpoint, x.sender, u32::from(x.short), 0) / 2
}

// Call record i has this short ID and pair.
fn is_short(s: &[u8], i: usize, x: ShortName) -> bool
    requires { 4 + 55 * i + 55 ≤ length s.now }
    ensures { result ≡ has_short s.now x.short x.endpoint x.sender i }
{
    let y = name_of(CallRecord {
        bytes: s,
        number: i,
    });
    (x.short == y.short) & (x.endpoint == y.endpoint) & (x.sender == y.sender)
}

// The record that stands for those, of the records noted, that have a short ID and a pair. How many are noted is for the
// caller to say.
// Kept: a walk along links, as in `is_best`.
fn find(
    s: &[u8],
    f: Factors,
    heads: &[u16; 1024],
    links: &[u16; 4096],
    x: ShortName,
) -> Option<usize>
    requires { SomeNoted f s.now heads.now links.now }
    ensures inside { IfSome result (λ i. i < 4096) }
    ensures found { (n : ℕ) → Noted f s.now heads.now links.now n → Found s.now n x.short x.endpoint x.sender result }
{
    let mut e = usize::from(heads[short_chain(f, x)]);
    while e != 0 {
        if is_short(s, e - 1, x) {
            return Some(e - 1);
        }
        e = usize::from(links[e - 1]);
    }
    None
}

// Notes call record i: it is put into its chain, unless an earlier one stands for it.
fn note_call(c: Checkpoint, f: Factors, heads: &mut [u16; 1024], links: &mut [u16; 4096], i: usize)
    requires { Noted f c.bytes.now heads.old links.old i × (i < c.calls) }
    ensures { Noted f c.entry.bytes.now heads.new links.new (i + 1) }
{
    let x = name_of(c.call(i));
    if let Some(_) = find(c.bytes, f, heads, links, x) {
        return;
    }
    let m = short_chain(f, x);
    links[i] = heads[m];
    heads[m] = (i + 1) as u16;
}

// Counts connection record k, for the call record that stands for those that it names.
fn count_connection(
    c: Checkpoint,
    f: Factors,
    heads: &[u16; 1024],
    links: &[u16; 4096],
    counts: &mut [u16; 4096],
    k: usize,
)
    requires { Noted f c.bytes.now heads.now links.now (calls_in c.bytes.now) × (k < c.connections) × ((j : ℕ) → get_or counts.old j 0 < 65535) }
    ensures { counts.new ≡ counted counts.old (stand_in_named c.entry.bytes.now (calls_in c.entry.bytes.now) (connection_record c.entry.bytes.now k)) }
{
    let m = c.connection(k);
    let x = ShortName {
        short: m.call.0,
        endpoint: m.lsp.endpoint,
        sender: m.lsp.sender,
    };
    if let Some(i) = find(c.bytes, f, heads, links, x) {
        counts[i] += 1;
    }
}

// Gives call record i what is counted for the one that stands for it: there is one.
fn count_for(
    c: Checkpoint,
    f: Factors,
    heads: &[u16; 1024],
    links: &[u16; 4096],
    counts: &mut [u16; 4096],
    i: usize,
)
    requires { Noted f c.bytes.now heads.now links.now (calls_in c.bytes.now) × (i < c.calls) }
    ensures { counts.new ≡ set counts.old i (get_or counts.old (stand_in_for c.entry.bytes.now (calls_in c.entry.bytes.now) i - 1) 0) }
{
    if let Some(j) = find(c.bytes, f, heads, links, name_of(c.call(i))) {
        counts[i] = counts[j];
    }
}

// How many connection records name each call record. The caller lends heads and counts of zeros, and links, to save
// stack: what the links hold before does not matter.
pub fn named_counts(
    c: Checkpoint,
    f: Factors,
    heads: &mut [u16; 1024],
    links: &mut [u16; 4096],
    counts: &mut [u16; 4096],
)
    requires { (heads.old ≡ replicate 1024 0) × (counts.old ≡ replicate 4096 0) }
    ensures { Filled (λ j. named_by c.entry.bytes.now (call_record c.entry.bytes.now j)) counts.new c.entry.calls }
{
    for i in 0..c.calls {
        note_call(c, f, heads, links, i);
    }
    for k in 0..c.connections {
        count_connection(c, f, heads, links, counts, k);
    }
    for i in 0..c.calls {
        count_for(c, f, heads, links, counts, i);
    }
}
