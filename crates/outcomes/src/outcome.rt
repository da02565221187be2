// What handling a message gives back, beside the table and the reply buffer that it was lent.
ghost use Rattle.std.specs.Prelude.{◌≡◌};

use answers::answer::Answer;

// The answer, and the reply's length, 0 where none is sent.
// Kept: 0, and no Option, is the length of no bytes, as `Answered` of spec_calls has it, and as C is told.
#[derive(Clone, Copy)]
pub struct Outcome {
    pub answer: Answer,
    pub length: usize,
}

// An answer that sends nothing.
pub fn unanswered(a: Answer) -> Outcome
    ensures { result ≡ record { answer = a; length = 0 } }
{
    Outcome {
        answer: a,
        length: 0,
    }
}
