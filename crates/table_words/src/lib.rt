// The words of the call table, read and written. This crate alone knows where a field stands; each contract is through
// `table_of`, the table that the words are.
#![tactic(auto)]

pub mod calls;
pub mod customers;
mod four_place;
pub mod fours;
pub mod head;
pub mod ids;
pub mod names;
pub mod whole;
mod words;
