// The call rules, as definitions, in specs/: what a message is answered, and what table and reply follow from the
// answer. The code above this crate is proved to do what stands here.
#![tactic(auto)]
