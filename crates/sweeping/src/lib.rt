// The sweep for a slot (document 01), over the table: the slot that it takes is found with nothing changed; then used flags are cleared.
#![tactic(auto)]

pub mod sweep;

// What a sweep takes: a slot, after so many were passed, which lose their used flags (all slots, where the first round met
// no unused one).
#[derive(Clone, Copy)]
pub struct Swept {
    pub slot: layout::Slot,
    pub passed: u32,
}
