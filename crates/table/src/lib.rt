// The call table: what the node knows between two messages. The caller lends it as an array of words.
#![tactic(auto)]

pub mod answer;
pub mod identifier;
pub mod layout;
pub mod share;
pub mod total;
pub mod word;
