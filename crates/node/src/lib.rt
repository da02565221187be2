// The node's call side: one message is answered, in a table and a reply buffer that the caller lends.
#![tactic(auto)]

pub mod handle;
