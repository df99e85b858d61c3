// An SSD image as text: what the program `listing` prints of one.
#![tactic(auto)]

pub mod image;
pub mod lines;
