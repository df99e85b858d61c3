// The calls that write a block: offer, land.
#![tactic(auto)]

pub mod land;
pub mod offer;
