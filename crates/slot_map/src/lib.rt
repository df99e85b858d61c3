// The slot map (document 02, N1): the cache on one printed sheet, a letter for each slot.
#![tactic(auto)]

pub mod map;
pub mod text;
