// The starred cases of document 01, "Two customers, one table": a table of rows, in specs/, run through the definitions
// by the checker, in proofs/.
#![tactic(auto)]
