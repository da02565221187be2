// The common header: tests 3 to 6.
ghost use Rattle.std.specs.Prelude.{◌≡◌, ◌≤◌, length};
ghost use Rattle.messages.specs.Header.{bad_message_length, checksum_holds, type_of, header_of};

use numbers::big_endian::get16;
use numbers::checksum::words_sum;
use objects::fault::Fault;

// The message types that the node takes.
#[derive(Clone, Copy)]
pub enum MessageType {
    Path,
    PathTear,
    Notify,
}

fn bad_message_length(s: &[u8]) -> bool
    ensures { result ≡ bad_message_length s.now }
{
    let n = s.len();
    if n < 8 {
        return true;
    }
    let len = usize::from(get16(s, 6));
    (1024 < n) | (n % 4 != 0) | (len != n)
}

// The checksum field is 0 or right, in a message whose length is good.
fn checksum_holds(s: &[u8]) -> bool
    requires { (8 ≤ length s.now) × (length s.now ≤ 1024) }
    ensures { result ≡ checksum_holds s.now }
{
    if get16(s, 2) == 0 {
        return true;
    }
    words_sum(s) == 65535
}

impl TryFrom<u8> for MessageType {
    type Error = Fault;

    ghost try_from_gives = { λ number r. r ≡ type_of number };

    fn try_from(number: u8) -> Result<MessageType, Fault> {
        match number {
            1 => Ok(MessageType::Path),
            5 => Ok(MessageType::PathTear),
            21 => Ok(MessageType::Notify),
            _ => Err(Fault::MessageType),
        }
    }
}

pub fn read_header(s: &[u8]) -> Result<MessageType, Fault>
    ensures { result ≡ header_of s.now }
{
    if bad_message_length(s) {
        return Err(Fault::MessageLength);
    }
    if s[0] / 16 != 1 {
        return Err(Fault::Version);
    }
    if !checksum_holds(s) {
        return Err(Fault::Checksum);
    }
    MessageType::try_from(s[1])
}
