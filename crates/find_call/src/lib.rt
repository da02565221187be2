// What the table says of a call request: whether the sender is listed, which of its IDs are in use, which call the
// node made for it, and whether its share is used up.
#![tactic(auto)]

pub mod late;
pub mod made;
pub mod request;
pub mod share;
