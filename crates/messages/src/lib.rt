// Reads a message of any bytes as one of the four kinds, or as a refusal.
#![tactic(auto)]

pub mod header;
pub mod message;
pub mod read;
pub mod status;
