// Document 01's record: its window, and every function that makes a record or changes one.
#![tactic(auto)]

use layout::{Label, Slot, WINDOW};

pub mod state;
pub mod window;

// The import's number as a caller, the largest there is.
// Kept: a caller stays a number: C hands any, a record's words hold any, and each is judged in its order (18, and 3).
pub const IMPORT: u32 = 1;

// How many slots the import may have open.
pub const IMPORT_MOST: u32 = 8;

// Document 01's phase: formatting, with the number of steps done; mending; ready.
#[derive(Clone, Copy)]
pub enum Phase {
    Formatting(u32),
    Recovering,
    Ready,
}

// Document 01's record. `unconfirmed` is its "unsettled"; the window is an array and its length, `count`; `callers` names the caller of
// each of its places (document 02, N7): 0 for people, 1 for the import.
#[derive(Clone, Copy)]
pub struct Record {
    pub label: Label,
    pub hand: Slot,
    pub newest: u32,
    pub phase: Phase,
    pub unconfirmed: bool,
    pub window: [Slot; WINDOW],
    pub count: u32,
    pub callers: [u32; WINDOW],
}
