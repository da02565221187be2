// Numbers, checksums and searches over byte slices: what the object layer is written with.
#![tactic(auto)]

pub mod big_endian;
pub mod checksum;
pub mod search;
