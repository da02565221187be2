// The records of a checkpoint (request A13), each by itself and all of them: written, and read.
#![tactic(auto)]

pub mod call;
pub mod calls;
pub mod checkpoint;
pub mod read;
pub mod write;
