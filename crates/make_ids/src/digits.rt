// Hex digits as a name's words have them: four to a word, the first one in the low byte.
ghost use Rattle.std.specs.Prelude.{◌≡◌, ◌<◌};
ghost use Rattle.table.specs.Words.{bytes_of};
ghost use Rattle.spec_calls.specs.Made.{hex_digit, hex_digits};
ghost use Rattle.make_ids.specs.Digits.{ValueOf, NumberOf, DigitsOf};

fn hex_digit(d: u32) -> u32
    requires { d < 16 }
    ensures { (result ≡ hex_digit d) × (result < 256) }
{
    if d < 10 { 0x30 + d } else { 0x57 + d }
}

// The last four digits of a number.
pub(crate) fn four_digits(v: u32) -> u32
    ensures { bytes_of result ≡ hex_digits 4 v }
{
    let a = hex_digit(v / 4096 % 16);
    let b = hex_digit(v / 256 % 16);
    let c = hex_digit(v / 16 % 16);
    let d = hex_digit(v % 16);
    a + b * 256 + c * 65536 + d * 16777216
}

// What a digit stands for; some number below 16 for a byte that is none.
fn digit_value(b: u32) -> u32
    ensures { ValueOf b result }
{
    if b < 0x61 { b % 16 } else { (b % 16 + 9) % 16 }
}

// The number below 4,096 whose four digits are in a word: larger numbers are never made, so that the first digit need not
// be read. The digits are written again and compared, so that nothing has to be known of bytes that are no digits.
pub(crate) fn number_of(word: u32) -> Option<u32>
    ensures { NumberOf word result }
{
    let b = digit_value(word / 256 % 256);
    let c = digit_value(word / 65536 % 256);
    let d = digit_value(word / 16777216);
    let n = b * 256 + c * 16 + d;
    if four_digits(n) == word {
        return Some(n);
    }
    None
}

// The digits of a pair, in the order of its names.
#[derive(Clone, Copy)]
pub(crate) struct PairDigits {
    pub sender_high: u32,
    pub sender_low: u32,
    pub endpoint_high: u32,
    pub endpoint_low: u32,
}

pub(crate) fn pair_digits(endpoint: u32, sender: u32) -> PairDigits
    ensures { DigitsOf endpoint sender result }
{
    PairDigits {
        sender_high: four_digits(sender / 65536),
        sender_low: four_digits(sender),
        endpoint_high: four_digits(endpoint / 65536),
        endpoint_low: four_digits(endpoint),
    }
}
