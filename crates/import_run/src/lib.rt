// An import of a list of blocks, run in memory (document 02, N8): each block is offered, once more after a copy-out, and landed (place), one
// after the other (list). Stores are counted and no image is touched: the table is a scratch table. Between places nothing is open that was
// not before, so of the record hand and newest stamp alone change.
#![tactic(auto)]

pub mod list;
pub mod place;

use layout::Slot;

// Where a run stands: the hand, the newest stamp, and the stores so far by kind. It changes in place.
#[derive(Clone, Copy)]
pub struct Run {
    pub hand: Slot,
    pub newest: u32,
    pub copies: u32,
    pub metadata: u32,
    pub landings: u32,
}
