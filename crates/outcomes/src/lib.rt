// What handling a message gives back, and the two replies, filled in from the request and the answer.
#![tactic(auto)]

pub mod outcome;
pub mod request;
pub mod sending;
