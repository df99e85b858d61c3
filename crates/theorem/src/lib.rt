// Demand 3 and the theorems beside it, proved of the definitions in crates/protocol/specs. There is no code here.
#![tactic(auto)]
