// Power is back: the box is reopened from its two images. Steps mend it before it serves.
#![tactic(auto)]

pub mod fill;
pub mod reopen;
