// Reads the objects of a message: what stands at a place, and the walk over all of them.
#![tactic(auto)]

pub mod fault;
pub mod fields;
pub mod object;
pub mod walk;
