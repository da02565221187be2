// One word, and a run of words.
ghost use Rattle.std.specs.Prelude.{◌≡◌, ◌+◌, ◌≤◌, ◌<◌, get_or, eqb};
ghost use Rattle.lists.specs.Below.{every_below};
ghost use Rattle.table.specs.Words.{word_count};

use table::layout::Words;

// The word so far behind a place. A read through it leaves its caller one fact to show, a read of the array three.
pub(crate) fn word(t: &Words, b: usize, k: usize) -> u32
    requires { b + k < word_count }
    ensures { result ≡ get_or t.now (b + k) 0 }
{
    t[b + k]
}

// The n words from a place on are zero. No early exit, and one test at the end: then the compiler joins several at a time.
pub(crate) fn zero_words(t: &Words, b: usize, n: usize) -> bool
    requires { b + n ≤ word_count }
    ensures { result ≡ every_below (λ k. eqb (get_or t.now (b + k) 0) 0) n }
{
    let mut joined: u32 = 0;
    for k in 0..n {
        joined |= word(t, b, k);
    }
    joined == 0
}
