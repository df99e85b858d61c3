// The table in memory: a lent slice of 32-bit words, two for each slot, block and flags. It is judged and searched by slot
// number here.
#![tactic(auto)]

use layout::Slot;

pub mod condition;
pub mod rows;

// What one pass over the table finds where every row keeps its rule: how many are writing, how many are not free, and the lowest
// slot that holds the block.
#[derive(Clone, Copy)]
pub struct Scan {
    pub writing: u32,
    pub busy: u32,
    pub at: Option<Slot>,
}
