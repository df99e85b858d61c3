// An offer or a fetch, once 3 to 7 are passed: its turn is decided with nothing changed. It is performed by the crate performing.
#![tactic(auto)]

pub mod turn;
