// Which slots are used: four words of 64 bits, one for each slot and some for no slot (01, Code places: trailing ones give
// the free slot, the count of ones the open calls).
// Kept: numbers with a bound in each contract (table::layout says why).
#![tactic(auto)]

ghost use Rattle.std.specs.Prelude.{◌≡◌, true, ◌≤◌, ◌<◌, length};
ghost use Rattle.lists.specs.Chain.{last_below};
ghost use Rattle.table.specs.Total.{slots};
ghost use Rattle.table.specs.Word.{bits, is_used, lowest_free, with_used, with_free, ones_of, FourWords, FreeFrom};
ghost use Rattle.table.specs.Lists.{entries};
ghost use Rattle.table.specs.Rules.{holds, slots_within_total};
ghost use Rattle.table.specs.Stores.{with_occupied};
ghost use Rattle.table.specs.Words.{table_of};

use table::layout::{SLOTS, Words};
use table::word::{first_clear, is_set, set_below, with_clear, with_set};
use table_words::head::{set_used_word, used_word};

// Whether a slot is used. Here and below, whoever asks says why the slot is one of the table's.
pub fn is_used(t: &Words, slot: usize) -> bool
    requires { slot < slots }
    ensures { result ≡ is_used (table_of t.now).occupied slot }
{
    is_set(used_word(t, slot / 64), slot % 64)
}

// The lowest free slot, by the trailing ones of each word: a full one is passed over. 256 where none is free.
// Kept: a number and no Option: callers have found by the shares that one is free, and `lowest_free` of the contract says
// 256 too.
pub fn lowest_free(t: &Words) -> usize
    ensures { result ≡ lowest_free (table_of t.now).occupied }
{
    for k in 0..4 {
        let n = first_clear(used_word(t, k));
        if n < 64 {
            return 64 * k + n;
        }
    }
    256
}

// The number of slots up to the last one that is marked as used, by the leading zeros of each word from the last one on.
// A mark behind the last slot counts too: a table rule refuses it.
pub fn marked_below(t: &Words) -> usize
    ensures { result ≡ last_below (is_used (table_of t.now).occupied) bits }
{
    for k in (0..4).rev() {
        let last = set_below(used_word(t, k));
        if last != 0 {
            return 64 * k + last;
        }
    }
    0
}

// The number of slots up to the last used one: loops over the calls end there.
pub fn used_below(t: &Words) -> usize
    ensures { (result ≤ slots) × FreeFrom (table_of t.now).occupied result }
{
    marked_below(t).min(SLOTS)
}

// How many slots are marked as used, by the ones of all words; and that the words are what such words are.
fn count_used(t: &Words) -> u32
    ensures { (result ≡ ones_of (table_of t.now).occupied) × FourWords (table_of t.now).occupied }
{
    used_word(t, 0).count_ones()
        + used_word(t, 1).count_ones()
        + used_word(t, 2).count_ones()
        + used_word(t, 3).count_ones()
}

// How many calls are open. Whoever asks knows that no slot outside the roster's total is marked: so there are as many marks
// as calls.
pub fn open_calls(t: &Words) -> u32
    requires { holds slots_within_total (table_of t.now) ≡ true }
    ensures { result ≡ length (entries (table_of t.now)) }
{
    count_used(t)
}

// Marks a slot as used, whatever it was.
pub fn mark_used(t: &mut Words, slot: usize)
    requires { slot < slots }
    ensures { table_of t.new ≡ with_occupied (table_of t.old) (with_used (table_of t.old).occupied slot) }
{
    let word = with_set(used_word(t, slot / 64), slot % 64);
    set_used_word(t, slot / 64, word)
}

// Marks a slot as free, whatever it was.
pub fn mark_free(t: &mut Words, slot: usize)
    requires { slot < slots }
    ensures { table_of t.new ≡ with_occupied (table_of t.old) (with_free (table_of t.old).occupied slot) }
{
    let word = with_clear(used_word(t, slot / 64), slot % 64);
    set_used_word(t, slot / 64, word)
}
