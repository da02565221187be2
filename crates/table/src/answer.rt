// What a roster is answered.
ghost use Rattle.std.specs.Prelude.{◌≡◌};
ghost use Rattle.table.specs.Roster.{roster_number};

// What a roster is refused for, with the number that document 01 gives the answer.
#[derive(Clone, Copy)]
pub enum RosterFault {
    // Shorter than its fixed part.
    Short = 40,
    // Form or customer count.
    BadForm = 41,
    Length = 42,
    // A record's spare bits, its guarantee and limit, or its address.
    SpareBits = 43,
    Share = 44,
    Repeated = 45,
    // The guarantees come to more than the form's total.
    Guarantees = 46,
}

// The number of the answer: 0 where the roster is accepted.
pub fn roster_number(answer: Result<(), RosterFault>) -> u8
    ensures { result ≡ roster_number answer }
{
    match answer {
        Ok(()) => 0,
        Err(fault) => fault as u8,
    }
}
