// The bits of ADMIN_STATUS that calls use.
ghost use Rattle.std.specs.Prelude.{◌≡◌, ◌<◌};
ghost use Rattle.messages.specs.Status.{bit_set};

// Reflect: the receiver answers.
pub const R: u32 = 0x8000_0000;

// Call control: the message is about a call.
pub const C: u32 = 8;

// Deletion in progress: the call is to be closed.
pub const D: u32 = 1;

// Whether a bit is set, given by its value, one of the three above. It divides by it, and so asks that it is not zero.
pub fn bit_set(bit: u32, bits: u32) -> bool
    requires { 0 < bit }
    ensures { result ≡ bit_set bit bits }
{
    bits / bit % 2 == 1
}
