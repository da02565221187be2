// A word of 64 bits, one for each of 64 slots.
ghost use Rattle.std.specs.Prelude.{◌≡◌, ◌<◌, ◌≤◌};
ghost use Rattle.lists.specs.Chain.{last_below};
ghost use Rattle.table.specs.Word.{is_set, first_clear, with_set, with_clear};

// Whether a bit is set. Here and below, whoever asks has the bit from a slot's remainder by 64.
pub fn is_set(word: u64, i: usize) -> bool
    requires { i < 64 }
    ensures { result ≡ is_set word i }
{
    (word >> i) % 2 == 1
}

// The first bit that is not set, by the word's trailing ones; 64 where all are.
pub fn first_clear(word: u64) -> usize
    ensures { (result ≡ first_clear word) × (result ≤ 64) }
{
    word.trailing_ones() as usize
}

// The number of bits up to the last one that is set, by the word's leading zeros.
pub fn set_below(word: u64) -> usize
    ensures { result ≡ last_below (is_set word) 64 }
{
    64 - word.leading_zeros() as usize
}

// The word with a bit set, whatever it was.
pub fn with_set(word: u64, i: usize) -> u64
    requires { i < 64 }
    ensures { result ≡ with_set word i }
{
    word | (1u64 << i)
}

// The word with a bit clear, whatever it was.
pub fn with_clear(word: u64, i: usize) -> u64
    requires { i < 64 }
    ensures { result ≡ with_clear word i }
{
    word & !(1u64 << i)
}
