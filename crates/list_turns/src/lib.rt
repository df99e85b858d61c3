// A place of a list that is offered as one: its turn (deal), which rests on where the one pass over the table found its block (found).
#![tactic(auto)]

pub mod deal;
pub mod found;
