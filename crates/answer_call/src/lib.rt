// Open and close.
#![tactic(auto)]

pub mod named;
pub mod nameless;
mod sending;
