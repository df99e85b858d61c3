// Calls on a whole box or its disk: format, write back, flush.
#![tactic(auto)]

pub mod flush;
pub mod format;
pub mod write_back;
