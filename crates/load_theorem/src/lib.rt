// That every block of a load reads as on a plain disk, whatever seed and number of draws: demand 3, of the load's own list of calls.
// There is no code here.
#![tactic(auto)]
