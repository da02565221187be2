// A checkpoint, as it is written before a restart and read after one (request A13): definitions and promises. The code
// is in the crates above.
#![tactic(auto)]
