// What a message is answered: the enum that the rules decide on, with document 01's number for each case and what it
// sends.
#![tactic(auto)]

pub mod answer;
