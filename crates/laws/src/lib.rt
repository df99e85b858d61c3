// Laws of the definitions in crates/protocol/specs, for the theorems and for the code's proofs. There is no code here.
#![tactic(auto)]
