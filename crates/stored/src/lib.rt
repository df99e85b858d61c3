// What an SSD image holds: label, metadata pages, the newest window. (Crate image_rules judges it.)
#![tactic(auto)]

pub mod image;

// The largest stamp, and the number of its page; none where every stamp is 0.
#[derive(Clone, Copy)]
pub struct Newest {
    pub stamp: u32,
    pub at: Option<u32>,
}
