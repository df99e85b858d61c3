// The record as C has it: words.
#![tactic(auto)]

pub mod words;

// The number of the record's words.
pub const RECORD_WORDS: usize = 134;
