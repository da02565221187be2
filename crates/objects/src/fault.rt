// Why a message is refused for its form alone.
ghost use Rattle.std.specs.Prelude.{◌≡◌};
ghost use Rattle.objects.specs.Faults.{fault_number};

#[derive(Clone, Copy)]
pub enum Fault {
    // The message's length.
    MessageLength,
    Version,
    Checksum,
    MessageType,
    // One object's length, class, or form: C-Type, length for its class, padding.
    ObjectLength,
    ObjectClass,
    ObjectForm,
    // An object missing or repeated.
    ObjectCount,
    // A Notify that asks for no call: C or R clear, or an error in it.
    NotCallRequest,
    // A Notify with no short Call ID, or a long one of no bytes or too many.
    CallIdentity,
}

// The number that document 01 gives the answer.
impl From<Fault> for u8 {
    ghost from_gives = { λ f number. number ≡ fault_number f };

    fn from(f: Fault) -> u8 {
        match f {
            Fault::MessageLength => 3,
            Fault::Version => 4,
            Fault::Checksum => 5,
            Fault::MessageType => 6,
            Fault::ObjectLength => 7,
            Fault::ObjectClass => 8,
            Fault::ObjectForm => 9,
            Fault::ObjectCount => 10,
            Fault::NotCallRequest => 12,
            Fault::CallIdentity => 13,
        }
    }
}
