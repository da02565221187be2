// The short ID that is made for a pair: the least number from 1 that no call of the pair takes.
ghost use Rattle.std.specs.Prelude.{◌≡◌, ◌≤◌, ◌<◌, get_or, false};
ghost use Rattle.lists.specs.Below.{first_not};
ghost use Rattle.table.specs.Total.{slots};
ghost use Rattle.table.specs.Lists.{call_at, entries};
ghost use Rattle.table.specs.Words.{table_of};
ghost use Rattle.spec_calls.specs.Made.{made_short};
ghost use Rattle.make_ids.specs.Digits.{DigitsOf, begins_with};
ghost use Rattle.make_ids.specs.Taken.{NumberIn, Marked, Takes};

use crate::digits::{PairDigits, number_of, pair_digits};
use crate::name::MADE_SIZE;
use objects::fields::CallId;
use occupancy::{is_used, used_below};
use table::layout::Words;
use table_words::calls::call_head;
use table_words::ids::is_size;
use table_words::names::name_word;

// The largest number that is made: each of 200 calls takes two at most.
const LARGEST: usize = 401;

// A mark for each number, and place 0, which stands for none.
const MARKS: usize = LARGEST + 1;

// A slot's name begins with a pair's digits.
fn begins_with(t: &Words, i: usize, p: PairDigits) -> bool
    requires { i < slots }
    ensures { result ≡ begins_with p (call_at (table_of t.now) i).name }
{
    let sender = (name_word(t, i, 0) == p.sender_high) & (name_word(t, i, 1) == p.sender_low);
    let endpoint = (name_word(t, i, 2) == p.endpoint_high) & (name_word(t, i, 3) == p.endpoint_low);
    sender & endpoint
}

// The number that a slot's name is made of for the pair of these digits. Only a name of the right size is looked at.
fn number_in(t: &Words, i: usize, p: PairDigits) -> Option<u32>
    requires { i < slots }
    ensures { NumberIn p (call_at (table_of t.now) i) result }
{
    let c = call_head(t, i);
    if !is_size(MADE_SIZE, c.size) {
        return None;
    }
    if !begins_with(t, i, p) {
        return None;
    }
    number_of(name_word(t, i, 4))
}

// A number's place among the marks: 0 for none, and for the numbers past the last.
fn mark_of(n: Option<u32>) -> usize
    ensures { Marked n result }
{
    let Some(number) = n else {
        return 0;
    };
    let mark = number as usize;
    if mark < MARKS { mark } else { 0 }
}

// The marks that a slot sets for a pair: that of its short ID, and that of the number that its name is made of.
// Kept: place 0 for none, and no Option: marking is two stores for each slot, without a test.
#[derive(Clone, Copy)]
struct Taken {
    short: usize,
    name: usize,
}

fn taken_by(t: &Words, i: usize, used: bool, endpoint: u32, sender: u32, p: PairDigits) -> Taken
    requires { (i < slots) × DigitsOf endpoint sender p }
    ensures { Takes used endpoint sender (call_at (table_of t.now) i) result }
{
    let c = call_head(t, i);
    let pair = used & ((endpoint == c.endpoint) & (sender == c.sender));
    if !pair {
        return Taken { short: 0, name: 0 };
    }
    let short = mark_of(Some(c.id.0));
    let name = mark_of(number_in(t, i, p));
    Taken { short, name }
}

// The first number from 1 without a mark.
fn first_unmarked(marks: &[bool; MARKS]) -> usize
    ensures { (result ≡ first_not (λ n. get_or marks.now n false) 400 1) × (result ≤ 401) }
{
    for n in 1..LARGEST {
        if !marks[n] {
            return n;
        }
    }
    LARGEST
}

// One pass over the calls: a search of them for each number would compare 40,000 where one pair has 200.
pub fn made_short(t: &Words, endpoint: u32, sender: u32) -> CallId
    ensures { (result.0 ≡ made_short (entries (table_of t.now)) endpoint sender) × (1 ≤ result.0) × (result.0 ≤ 401) }
{
    let p = pair_digits(endpoint, sender);
    let mut marks = [false; MARKS];
    for i in 0..used_below(t) {
        let taken = taken_by(t, i, is_used(t, i), endpoint, sender, p);
        let short = taken.short;
        let name = taken.name;
        marks[short] = true;
        marks[name] = true;
    }
    CallId(first_unmarked(&marks) as u16)
}
