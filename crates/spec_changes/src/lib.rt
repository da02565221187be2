// What an answer does to the table: the definitions, in specs/, and that each change keeps the table rules, in proofs/.
#![tactic(auto)]
