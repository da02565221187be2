// Our own MESSAGE_ID identifiers.
ghost use Rattle.std.specs.Prelude.{◌≡◌};
ghost use Rattle.table.specs.Identifier.{identifier_after};

// The identifier behind one: from 4,294,967,295 it goes to 0.
pub fn identifier_after(identifier: u32) -> u32
    ensures { result ≡ identifier_after identifier }
{
    identifier.wrapping_add(1)
}
