// Checkpoints with one call recorded twice, and one copy byte by byte: rows in specs/, written and read through the
// definitions by the checker, in proofs/.
#![tactic(auto)]
