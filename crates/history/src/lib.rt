// Demand 3 of any run of the register's calls: definitions in specs/, theorems in proofs/.
#![tactic(auto)]
