// The calls that find a block: look up, also a list of blocks, view.
#![tactic(auto)]

pub mod look_up;
pub mod look_up_list;
pub mod view;
