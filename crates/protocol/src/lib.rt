// The declared types of the box. What every call does is said in specs/, and crate theorem proves demand 3 of it.
#![tactic(auto)]

ghost use Rattle.std.specs.Prelude.{◌≡◌};
ghost use Rattle.protocol.specs.Judge.{number_of};

use layout::{Block, Slot};
use record::Record;

// Why a call is refused: the rows of document 01's table "Why a call says no" and document 02's, each with its number there.
#[derive(Clone, Copy, PartialEq, Eq)]
pub enum Refusal {
    BadLimits = 1,
    NoLabel = 2,
    BadRecord = 3,
    WrongLength = 4,
    BadRows = 5,
    WrongPhase = 6,
    BlockTooHigh = 7,
    SlotOpen = 8,
    WrongState = 9,
    HasSlot = 10,
    WindowFull = 11,
    AllOpen = 12,
    StampsSpent = 13,
    // document 02, N1
    SheetShort = 14,
    // document 02, N3
    BadScan = 15,
    // document 02, N6
    BadList = 16,
    // document 02, N7
    ImportFull = 17,
    UnknownCaller = 18,
}

impl Refusal {
    // Its number in the tables.
    pub fn number(self) -> u32
        ensures { result ≡ number_of self }
    {
        self as u32
    }
}

// What a call answers that is not refused.
#[derive(Clone, Copy)]
pub enum Answer {
    Announced(Slot),
    Overwrite,
    CopiedOut,
    Looked(Condition),
    NothingToDo,
    Done,
    Dealt(u32),
}

// Where a call stored: on a page of the SSD or of the HDD image, by its number.
#[derive(Clone, Copy)]
pub enum Stored {
    Ssd(u32),
    Hdd(u32),
}

// What a call returns that is not refused: its answer, the record, and where it stored, if it did.
#[derive(Clone, Copy)]
pub struct Outcome {
    pub answer: Answer,
    pub state: Record,
    pub stored: Option<Stored>,
}

// The stores that an import makes, by kind: copy-outs, metadata stores, and data stores, one for each landing.
#[derive(Clone, Copy)]
pub struct Counts {
    pub copies: u32,
    pub metadata: u32,
    pub landings: u32,
}

// What an import would cost: its stores; or the number of the refusal that the run would meet, the list place that meets it, counted from
// 0, and the stores up to it.
#[derive(Clone, Copy)]
pub enum Cost {
    Counted(Counts),
    Met(u32, u32, Counts),
}

// A block's condition: where it is, and how. It is what a look-up answers.
#[derive(Clone, Copy)]
pub enum Condition {
    NotCached,
    Clean(Slot),
    Dirty(Slot),
    Writing(Slot),
    Fetching(Slot),
}
