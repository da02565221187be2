// One call record of a checkpoint (request A13): whether it fits, and the table with it.
#![tactic(auto)]

pub mod placing;
