// The ledger and its promises over whole lists of messages, in specs/; that the call rules keep them (demand 3), in
// proofs/.
#![tactic(auto)]
