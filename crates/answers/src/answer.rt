// What a message is answered (document 01, "Every answer").
ghost use Rattle.std.specs.Prelude.{◌≡◌};
ghost use Rattle.answers.specs.Answers.{row_of, answer_number};

use objects::fault::Fault;

#[derive(Clone, Copy)]
pub enum Answer {
    // The table handed in breaks a table rule.
    TableBroken,
    // Reply buffer under 128 bytes.
    BufferTooSmall,
    // A fault of form that the object layer found.
    Malformed(Fault),
    SenderNotListed,
    // Path: its connection stands under another Call ID.
    UnderOtherCall,
    // PathTear: of a connection not held.
    NotHeld,
    // Notify: behind the last one accepted of its sender.
    Late,
    CallOpened,
    CallAlreadyOpen,
    CallClosed,
    ConnectionAdded,
    ConnectionAlreadyHeld,
    ConnectionRemoved,
    // Short ID in use by the pair, long ID not.
    CallIdContention,
    // Long ID in use by the pair under another short ID.
    DuplicateCall,
    ConnectionsStillExist,
    // Close: no call of the pair has both IDs.
    UnknownCall,
    // Open: the customer's limit, or the room that guarantees leave, is used up.
    NoShare,
    // Path: nonzero Call ID, no such call of the pair.
    PathUnknownCall,
    // Path: four connections already.
    NoPlaceLeft,
}

// What an answer sends.
#[derive(Clone, Copy)]
pub enum Reply {
    Nothing,
    Notify,
    PathErr,
}

// A row of document 01's table of answers: the number, what is sent, and the error code and value that it carries, 0
// and 0 on success.
#[derive(Clone, Copy)]
pub struct AnswerRow {
    pub number: u8,
    pub reply: Reply,
    pub code: u8,
    pub value: u16,
}

fn row(number: u8, reply: Reply, code: u8, value: u16) -> AnswerRow
    ensures { result ≡ record { number = number; reply = reply; code = code; value = value } }
{
    AnswerRow {
        number,
        reply,
        code,
        value,
    }
}

pub fn row_of(a: Answer) -> AnswerRow
    ensures { result ≡ row_of a }
{
    match a {
        Answer::TableBroken => row(1, Reply::Nothing, 0, 0),
        Answer::BufferTooSmall => row(2, Reply::Nothing, 0, 0),
        Answer::Malformed(f) => row(u8::from(f), Reply::Nothing, 0, 0),
        Answer::SenderNotListed => row(11, Reply::Nothing, 0, 0),
        Answer::UnderOtherCall => row(14, Reply::Nothing, 0, 0),
        Answer::NotHeld => row(15, Reply::Nothing, 0, 0),
        Answer::Late => row(16, Reply::Nothing, 0, 0),
        Answer::CallOpened => row(20, Reply::Notify, 0, 0),
        Answer::CallAlreadyOpen => row(21, Reply::Notify, 0, 0),
        Answer::CallClosed => row(22, Reply::Notify, 0, 0),
        Answer::ConnectionAdded => row(23, Reply::Nothing, 0, 0),
        Answer::ConnectionAlreadyHeld => row(24, Reply::Nothing, 0, 0),
        Answer::ConnectionRemoved => row(25, Reply::Nothing, 0, 0),
        Answer::CallIdContention => row(30, Reply::Notify, 32, 1),
        Answer::DuplicateCall => row(31, Reply::Notify, 32, 4),
        Answer::ConnectionsStillExist => row(32, Reply::Notify, 32, 2),
        Answer::UnknownCall => row(33, Reply::Notify, 32, 3),
        Answer::NoShare => row(34, Reply::Notify, 2, 0),
        Answer::PathUnknownCall => row(35, Reply::PathErr, 32, 3),
        Answer::NoPlaceLeft => row(37, Reply::PathErr, 2, 0),
    }
}

// The number that document 01 gives the answer.
impl From<Answer> for u8 {
    ghost from_gives = { λ a n. n ≡ answer_number a };

    fn from(a: Answer) -> u8 {
        row_of(a).number
    }
}
