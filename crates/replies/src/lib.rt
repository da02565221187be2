// The two messages that the node sends, each complete.
#![tactic(auto)]

pub mod notify;
pub mod path_err;
