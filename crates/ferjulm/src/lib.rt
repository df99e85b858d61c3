// The calls for C. Each takes the record as 134 words and returns a result code, as crate `c_record` has them. A refusal changes
// nothing that was lent.
#![tactic(auto)]

pub mod calls;
pub mod cost;
pub mod label;
pub mod list;
pub mod map;
pub mod view;
