// Searches over a slice of bytes.
ghost use Rattle.std.specs.Prelude.{◌≡◌, ◌+◌, ◌≤◌, length};
ghost use Rattle.numbers.specs.Search.{zeros_at, unpadded};

// Whether the n bytes from a place are zero. They lie within the slice, as in `big_endian`.
pub fn zeros(s: &[u8], at: usize, n: usize) -> bool
    requires { at + n ≤ length s.now }
    ensures { result ≡ zeros_at s.now at n }
{
    for i in at..at + n {
        if s[i] != 0 {
            return false;
        }
    }
    true
}

// Of the n bytes from a place, how many there are up to the last that is not zero: padding is looked for from the end.
pub fn unpadded(s: &[u8], at: usize, n: usize) -> usize
    requires { at + n ≤ length s.now }
    ensures { result ≡ unpadded s.now at n }
{
    for k in (0..n).rev() {
        if s[at + k] != 0 {
            return k + 1;
        }
    }
    0
}
