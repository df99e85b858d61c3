// The answers as C has them (answers): result codes, slots and where a page lies; where the page of a view lies (seen).
#![tactic(auto)]

pub mod answers;
pub mod seen;

// Where a page lies: in image 1, the SSD, or image 2, the HDD, from byte `offset` on; image 0 is none.
// Kept: C reads the image as a number (include/ferjulm.h).
#[derive(Clone, Copy)]
pub struct Place {
    pub image: u32,
    pub offset: u64,
}
