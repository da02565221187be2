// Writes the parts of a reply: its header, one writer for each object, and the checksum.
#![tactic(auto)]

pub mod made;
pub mod writers;

// The smallest reply buffer that a message is taken with (01, answer 2): `least_buffer`.
pub const LEAST_BUFFER: usize = 128;
