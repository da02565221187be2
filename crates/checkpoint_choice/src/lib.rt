// Which call record of a checkpoint salvage keeps where several have one pair and long Call ID (request A13).
#![tactic(auto)]

pub mod choosing;
pub mod naming;
