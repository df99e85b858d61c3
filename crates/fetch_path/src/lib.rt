// The calls that bring a block into the SSD to be read there: fetch, land a fetch.
#![tactic(auto)]

pub mod fetch;
pub mod land_fetch;
