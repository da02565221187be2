// The sum that a message's checksum is made from, in 16-bit numbers alone (02, A5).
ghost use Rattle.std.specs.Prelude.{◌≡◌, ◌+◌, ◌*◌, ◌≤◌, length};
ghost use Rattle.numbers.specs.Checksum.{all_round, sum_so_far, words_sum};

use crate::big_endian::get16;

// Two numbers added, one more where the sum wrapped: its carry is brought round.
fn add_round(a: u16, b: u16) -> u16
    ensures { result ≡ all_round (a + b) }
{
    let sum = a.wrapping_add(b);
    if sum < a {
        return sum + 1;
    }
    sum
}

// The one's complement sum of the first n words. The carry goes round after each word, where 01's sum brings all carries
// round at the end. Both take FFFF out, so many times, and come to the same: a multiple of FFFF is FFFF and never 0, and 0
// comes of zeros only. n words lie within the slice: the caller has its length. No message is longer than this asks, and
// within that 01's two rounds leave no carry; the 16-bit sum itself would need no bound.
pub fn first_words_sum(s: &[u8], n: usize) -> u16
    requires { (2 * n ≤ length s.now) × (length s.now ≤ 65535) }
    ensures { result ≡ sum_so_far s.now n }
{
    let mut sum: u16 = 0;
    for k in 0..n {
        sum = add_round(sum, get16(s, 2 * k));
    }
    sum
}

// The sum of all words of s; an odd last byte is in none. A message's length field has 16 bits, so no message is longer
// than this asks.
pub fn words_sum(s: &[u8]) -> u16
    requires { length s.now ≤ 65535 }
    ensures { result ≡ words_sum s.now }
{
    first_words_sum(s, s.len() / 2)
}
