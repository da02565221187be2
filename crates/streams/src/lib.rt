// Reading a stream of bytes into a space that is there.
#![tactic(auto)]

ghost use Rattle.std.specs.Prelude.{◌≡◌, ℕ, ◌<◌, ◌≤◌, length, take, IfOk, OnErr};
ghost use Rattle.std.specs.Io.KnownBytes.{Consumes, IsAtEnd};

use std::io::{Read, Result};

// Reads until the space is full or the input ends, and returns how many bytes stand at the front of the space. These
// are the input's next ones, and they are fewer than there is room for only where the input has ended. Where a read
// fails, what was read before it stands there, and nothing of the input is lost.
pub fn read_full<R: Read>(input: &mut R, space: &mut [u8]) -> Result<usize>
    ensures fits { IfOk result (λ n. n ≤ length space.new) }
    ensures bytes { IfOk result (λ n. Consumes (R.remaining input.old) (R.remaining input.new) (take n space.new)) }
    ensures end { IfOk result (λ n. n < length space.new → IsAtEnd (R.remaining input.new)) }
    ensures failed { OnErr result ((n : ℕ) × (n ≤ length space.new) × Consumes (R.remaining input.old) (R.remaining input.new) (take n space.new)) }
{
    let mut done = 0;
    while done < space.len() {
        let n = input.read(&mut space[done..])?;
        if n == 0 {
            return Ok(done);
        }
        done += n;
    }
    Ok(done)
}
