// What is stored: slot and block numbers, the label, and where each page of the two images lies; what a label
// page is (crate label_page has its code), and a metadata page (metadata, page_rule).
#![tactic(auto)]

ghost use Rattle.std.specs.Prelude.{◌≡◌};
ghost use Rattle.layout.specs.Window.{slots_in};

pub mod numbers;
pub mod places;
pub mod stamps;
pub mod zeros;

// The number of a slot: a place in the SSD, counted from 0.
#[derive(Clone, Copy, PartialEq, Eq)]
pub struct Slot(pub u32);

// The number of a block: a page of the HDD, counted from 0.
#[derive(Clone, Copy, PartialEq, Eq)]
pub struct Block(pub u32);

// What the label page says of a box. It is built by `places::label` alone.
#[derive(Clone, Copy)]
pub struct Label {
    pub slots: u32,
    pub blocks: u32,
}

// The most slots of a window.
pub const WINDOW: usize = 63;

// A window, as a metadata page and the record have it: slot numbers, and how many of them there are.
#[derive(Clone, Copy)]
pub struct Window {
    pub slots: [Slot; WINDOW],
    pub count: u32,
}

impl Window {
    // The slots up to the window's length, at most all.
    pub fn slots(&self) -> &[Slot]
        ensures { result.now ≡ slots_in self.now }
    {
        let n = (self.count as usize).min(WINDOW);
        &self.slots[..n]
    }
}

// An entry of a metadata page: a block, and the stored flags 1 valid, 2 dirty, 4 writing.
#[derive(Clone, Copy)]
pub struct Entry {
    pub block: Block,
    pub flags: u32,
}
