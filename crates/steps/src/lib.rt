// A step: the next page of a format, or of mending after a reopening.
#![tactic(auto)]

pub mod step;
