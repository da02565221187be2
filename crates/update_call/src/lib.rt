// The changes that an answer makes to the calls of the table: opened, closed, refreshed, an own identifier taken.
#![tactic(auto)]

pub mod slots;
