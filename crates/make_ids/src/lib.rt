// The IDs that the node makes for a request without names: the least short ID that a pair leaves free, and the name that
// is made of it.
#![tactic(auto)]

mod digits;
pub mod name;
pub mod short;
