// A slot's call. Whoever asks says why the slot is one of the table's.
// Kept: numbers with a bound in each contract (table::layout says why).
ghost use Rattle.std.specs.Prelude.{◌≡◌, ◌+◌, ◌-◌, ◌≤◌, ◌<◌};
ghost use Rattle.lists.specs.Below.{every_below};
ghost use Rattle.table.specs.Total.{slots};
ghost use Rattle.table.specs.Lists.{call_at};
ghost use Rattle.table.specs.Rules.{same_bytes, call_clear};
ghost use Rattle.table.specs.Stores.{with_slot, with_refresh};
ghost use Rattle.table.specs.Words.{name_at_word, call_at_word, table_of};
ghost use Rattle.table_words.specs.Heads.{head_of, call_of};

use crate::words::{word, zero_words};
use table::layout::{
    CALL_EPOCH, CALL_ID, CALL_WORDS, FIRST_CALL, IDENTIFIER, MADE, NAME, NAME_WORDS, REFRESHED,
    SENDER, SIZE, SLOTS, Words,
};

// A table's word for a Call ID: any number, until the rules are known to hold.
#[derive(Clone, Copy, PartialEq, Eq)]
pub struct CallWord(pub u32);

// A call's first eight words. Callers use a few of them, and the compiler loads no others.
#[derive(Clone, Copy)]
pub struct CallHead {
    pub endpoint: u32,
    pub sender: u32,
    pub refreshed: u32,
    pub epoch: u32,
    pub identifier: u32,
    pub id: CallWord,
    pub made: u32,
    pub size: u32,
}

pub fn call_head(t: &Words, i: usize) -> CallHead
    requires { i < slots }
    ensures { result ≡ head_of (call_at (table_of t.now) i) }
{
    let b = FIRST_CALL + CALL_WORDS * i;
    CallHead {
        endpoint: t[b],
        sender: word(t, b, SENDER),
        refreshed: word(t, b, REFRESHED),
        epoch: word(t, b, CALL_EPOCH),
        identifier: word(t, b, IDENTIFIER),
        id: CallWord(word(t, b, CALL_ID)),
        made: word(t, b, MADE),
        size: word(t, b, SIZE),
    }
}

// The slot's name, all 32 bytes of it, is that of eight words. No early exit: then the compiler compares several words at
// a time.
#[tactic(auto, using(lists::proofs::Below::every_none, lists::proofs::Below::every_turn))]
pub fn is_named(t: &Words, i: usize, name: &[u32; 8]) -> bool
    requires { i < slots }
    ensures { result ≡ same_bytes (name_at_word name.now 0) (call_at (table_of t.now) i).name }
{
    let b = FIRST_CALL + CALL_WORDS * i + NAME;
    let mut same = true;
    for k in 0..8 {
        same &= name[k] == word(t, b, k);
    }
    same
}

// Two slots' names, all 32 bytes of them, are the same.
#[tactic(auto, using(lists::proofs::Below::every_none, lists::proofs::Below::every_turn))]
pub fn same_names(t: &Words, j: usize, i: usize) -> bool
    requires { (j < slots) × (i < slots) }
    ensures { result ≡ same_bytes (call_at (table_of t.now) j).name (call_at (table_of t.now) i).name }
{
    let b = FIRST_CALL + CALL_WORDS * j + NAME;
    let c = FIRST_CALL + CALL_WORDS * i + NAME;
    let mut same = true;
    for k in 0..NAME_WORDS {
        same &= word(t, b, k) == word(t, c, k);
    }
    same
}

// A free slot: all of its words are zero.
pub fn call_clear(t: &Words, i: usize) -> bool
    requires { i < slots }
    ensures { result ≡ call_clear (call_at (table_of t.now) i) }
{
    zero_words(t, FIRST_CALL + CALL_WORDS * i, CALL_WORDS)
}

// The slots from n on are free: their words stand in one row, and all are zero. Whoever asks has n from the occupancy's
// words.
pub fn calls_clear_from(t: &Words, n: usize) -> bool
    requires { n ≤ slots }
    ensures { result ≡ every_below (λ j. call_clear (call_at (table_of t.now) (n + j))) (slots - n) }
{
    zero_words(t, FIRST_CALL + CALL_WORDS * n, CALL_WORDS * (SLOTS - n))
}

// The words of a call with nothing under it.
pub fn call_words(c: CallHead, name: &[u32; 8]) -> [u32; 32]
    ensures { call_at_word result 0 ≡ call_of c (name_at_word name.now 0) }
{
    [
        c.endpoint,
        c.sender,
        c.refreshed,
        c.epoch,
        c.identifier,
        c.id.0,
        c.made,
        c.size,
        name[0],
        name[1],
        name[2],
        name[3],
        name[4],
        name[5],
        name[6],
        name[7],
        0,
        0,
        0,
        0,
        0,
        0,
        0,
        0,
        0,
        0,
        0,
        0,
        0,
        0,
        0,
        0,
    ]
}

// A slot's words stored; whether it is used is another matter.
pub fn put_slot(t: &mut Words, i: usize, x: &[u32; 32])
    requires { i < slots }
    ensures { table_of t.new ≡ with_slot (table_of t.old) (table_of t.old).occupied i (call_at_word x.now 0) }
{
    let b = FIRST_CALL + CALL_WORDS * i;
    t[b..b + CALL_WORDS].copy_from_slice(x);
}

// A slot's last refresh stored.
pub fn put_refreshed(t: &mut Words, i: usize, time: u32)
    requires { i < slots }
    ensures { table_of t.new ≡ with_slot (table_of t.old) (table_of t.old).occupied i (with_refresh (call_at (table_of t.old) i) time) }
{
    let b = FIRST_CALL + CALL_WORDS * i;
    t[b + REFRESHED] = time;
}
