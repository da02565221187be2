// The table's head: who the node is, how many customers it lists, its roster's form, its next identifier, its time, and the
// words of the slots that are used.
ghost use Rattle.std.specs.Prelude.{◌≡◌, ◌<◌, get_or, set};
ghost use Rattle.table.specs.Stores.{with_occupied, with_next, with_time, with_roster};
ghost use Rattle.table.specs.Words.{table_of};

use crate::words::word;
use table::layout::{ADDRESS, EPOCH, FORM, LISTED, NEXT, OCCUPIED, TIME, Words};

pub fn address(t: &Words) -> u32
    ensures { result ≡ (table_of t.now).address }
{
    t[ADDRESS]
}

pub fn epoch(t: &Words) -> u32
    ensures { result ≡ (table_of t.now).epoch }
{
    t[EPOCH]
}

// The next own identifier.
pub fn next(t: &Words) -> u32
    ensures { result ≡ (table_of t.now).next }
{
    t[NEXT]
}

// The node's time.
pub fn time(t: &Words) -> u32
    ensures { result ≡ (table_of t.now).time }
{
    t[TIME]
}

// How many customers are listed: any number, until the rules are known to hold.
pub fn listed(t: &Words) -> usize
    ensures { result ≡ (table_of t.now).listed }
{
    t[LISTED] as usize
}

// The roster's form: any number, until the rules are known to hold.
pub fn form(t: &Words) -> u32
    ensures { result ≡ (table_of t.now).form }
{
    t[FORM]
}

// One of the four words of the slots that are used: two words of the table. Here and below, whoever asks has k from a slot,
// or from a loop over the four.
pub fn used_word(t: &Words, k: usize) -> u64
    requires { k < 4 }
    ensures { result ≡ get_or (table_of t.now).occupied k 0 }
{
    let low = u64::from(word(t, OCCUPIED, 2 * k));
    let high = u64::from(word(t, OCCUPIED + 1, 2 * k));
    low + high * 4294967296
}

pub fn set_used_word(t: &mut Words, k: usize, word: u64)
    requires { k < 4 }
    ensures { table_of t.new ≡ with_occupied (table_of t.old) (set (table_of t.old).occupied k word) }
{
    let b = OCCUPIED + 2 * k;
    t[b] = (word % 4294967296) as u32;
    t[b + 1] = (word / 4294967296) as u32;
}

pub fn set_next(t: &mut Words, next: u32)
    ensures { table_of t.new ≡ with_next (table_of t.old) next }
{
    t[NEXT] = next;
}

pub fn set_time(t: &mut Words, time: u32)
    ensures { table_of t.new ≡ with_time (table_of t.old) time }
{
    t[TIME] = time;
}

// What a roster says of the node, how many customers it lists, and its form.
pub fn set_roster(t: &mut Words, address: u32, epoch: u32, listed: u32, form: u32)
    ensures { table_of t.new ≡ with_roster (table_of t.old) address epoch listed form }
{
    t[ADDRESS] = address;
    t[EPOCH] = epoch;
    t[LISTED] = listed;
    t[FORM] = form;
}
