// What the table says of a connection that a Path or a PathTear names: whether it is held, and where; whether its call
// is open; how many stand beside it in its four.
#![tactic(auto)]

pub mod four;
pub mod standalone;
pub mod under;
