// A list of blocks (document 02, N6): judged, found by one pass over the table for the whole list, and their used flags set.
#![tactic(auto)]

pub mod list;
pub mod pass;
pub mod places;
