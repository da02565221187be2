// The bytes of a call's name, four to a word, the low one first.
// Kept: numbers with a bound in each contract (table::layout says why).
ghost use Rattle.std.specs.Prelude.{◌≡◌, ◌+◌, ◌≤◌, ◌<◌, min, length, get_or, take, drop, replicate};
ghost use Rattle.numbers.specs.Buffer.{at_front};
ghost use Rattle.table.specs.Total.{slots};
ghost use Rattle.table.specs.Lists.{call_at};
ghost use Rattle.table.specs.Words.{bytes_of, name_at_word, table_of};
ghost use Rattle.table_words.specs.Names.{word_in};

use crate::words::word;
use table::layout::{CALL_WORDS, FIRST_CALL, NAME, Words};

// How many of a name's 32 bytes count.
pub fn name_size(size: u32) -> usize
    ensures { result ≡ min size 32 }
{
    (size as usize).min(32)
}

// A byte of a word.
pub fn byte_of(word: u32, j: usize) -> u8
    requires { j < 4 }
    ensures { result ≡ get_or (bytes_of word) j 0 }
{
    word.to_le_bytes()[j]
}

pub fn name_byte(t: &Words, i: usize, k: usize) -> u8
    requires { (i < slots) × (k < 32) }
    ensures { result ≡ get_or (call_at (table_of t.now) i).name k 0 }
{
    byte_of(word(t, FIRST_CALL + CALL_WORDS * i + NAME, k / 4), k % 4)
}

// One of the eight words of a slot's name: four of its bytes, the low one first.
pub fn name_word(t: &Words, i: usize, k: usize) -> u32
    requires { (i < slots) × (k < 8) }
    ensures { result ≡ word_in (call_at (table_of t.now) i).name k }
{
    word(t, FIRST_CALL + CALL_WORDS * i + NAME, k)
}

// The byte of a name of n bytes at s[at]: zeros behind it.
fn padded_byte(s: &[u8], at: usize, n: usize, k: usize) -> u8
    requires { at + n ≤ length s.now }
    ensures { result ≡ get_or (take n (drop at s.now)) k 0 }
{
    if k < n { s[at + k] } else { 0 }
}

// A name of bytes as the table's eight words, zeros behind it.
// Kept: a place and a length, and no slice: whoever asks has the part of a message that the reading found, and its contract
// says where the part lies.
pub fn name_words(s: &[u8], at: usize, n: usize) -> [u32; 8]
    requires { (n ≤ 32) × (at + n ≤ length s.now) }
    ensures { name_at_word result 0 ≡ at_front (take n (drop at s.now)) (replicate 32 0) }
{
    let mut name = [0u32; 8];
    for k in 0..8 {
        let a = padded_byte(s, at, n, 4 * k);
        let b = padded_byte(s, at, n, 4 * k + 1);
        let c = padded_byte(s, at, n, 4 * k + 2);
        let d = padded_byte(s, at, n, 4 * k + 3);
        name[k] = u32::from_le_bytes([a, b, c, d]);
    }
    name
}
