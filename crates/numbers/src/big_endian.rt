// Numbers in a slice of bytes, most significant byte first.
//
// Each function asks that its bytes lie within the slice: its callers have tested a whole object's
// length once, and would otherwise test again for each field.
ghost use Rattle.std.specs.Prelude.{◌≡◌, ◌+◌, ◌<◌, [], ◌∷◌, length};
ghost use Rattle.std.proofs.lemmas.List.Edits.{sets};
ghost use Rattle.numbers.specs.BigEndian.{be16_at, be24_at, be32_at, bytes16, bytes24, bytes32};

// Kept: a function for each width, here and below: their results differ in type, and each body is one line of std's.
pub fn get16(s: &[u8], at: usize) -> u16
    requires { at + 1 < length s.now }
    ensures { result ≡ be16_at s.now at }
{
    u16::from_be_bytes([s[at], s[at + 1]])
}

pub fn get24(s: &[u8], at: usize) -> u32
    requires { at + 2 < length s.now }
    ensures { result ≡ be24_at s.now at }
{
    u32::from_be_bytes([0, s[at], s[at + 1], s[at + 2]])
}

pub fn get32(s: &[u8], at: usize) -> u32
    requires { at + 3 < length s.now }
    ensures { result ≡ be32_at s.now at }
{
    u32::from_be_bytes([s[at], s[at + 1], s[at + 2], s[at + 3]])
}

pub fn put8(out: &mut [u8], at: usize, v: u8)
    requires { at < length out.old }
    ensures { out.new ≡ sets out.old at (v ∷ []) }
{
    out[at] = v;
}

pub fn put16(out: &mut [u8], at: usize, v: u16)
    requires { at + 1 < length out.old }
    ensures { out.new ≡ sets out.old at (bytes16 v) }
{
    let [a, b] = v.to_be_bytes();
    out[at] = a;
    out[at + 1] = b;
}

// The low 24 bits of v.
pub fn put24(out: &mut [u8], at: usize, v: u32)
    requires { at + 2 < length out.old }
    ensures { out.new ≡ sets out.old at (bytes24 v) }
{
    let [_, a, b, c] = v.to_be_bytes();
    out[at] = a;
    out[at + 1] = b;
    out[at + 2] = c;
}

pub fn put32(out: &mut [u8], at: usize, v: u32)
    requires { at + 3 < length out.old }
    ensures { out.new ≡ sets out.old at (bytes32 v) }
{
    let [a, b, c, d] = v.to_be_bytes();
    out[at] = a;
    out[at + 1] = b;
    out[at + 2] = c;
    out[at + 3] = d;
}
