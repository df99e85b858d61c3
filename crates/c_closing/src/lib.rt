// How a call for C ends: what it leaves of the words and of what is lent for its answer (closing, counts), and a format by words of another
// number (fresh).
#![tactic(auto)]

pub mod closing;
pub mod counts;
pub mod fresh;
