// The turn of an offer or a fetch, once 3 to 7 are passed: what it does is decided, and nothing is changed.
ghost use Rattle.std.specs.Prelude.{◌≡◌, true, ◌+◌, ◌*◌, ◌<◌, length, Ok};
ghost use Rattle.layout.specs.Places.{table_length};
ghost use Rattle.record.specs.Rule.{record_test};
ghost use Rattle.sweeping.specs.Sweeps.{swept_after};
ghost use Rattle.turns.specs.Turns.{Sweepable, Seen, Within, held_by, crowd_by, spent, take_turn, sweep_turn, clean_turn, offer_turn_at, fetch_turn_at, offer_turn, fetch_turn};

use layout::{Label, Slot, WINDOW, stamps};
use protocol::{Condition, Refusal};
use record::{IMPORT, IMPORT_MOST, Record, window};
use sweeping::sweep;

// What an offer or a fetch does that 8, 10, 17, 11 or 12 does not refuse: passes, the answer being "overwrite"; opens a slot with these
// flags, after so many slots were passed, which lose their used flags, and leaves the hand on the last one named; copies out a
// slot, after so many were passed. Whoever performs it judges 13, where it opens.
#[derive(Clone, Copy)]
pub enum Turn {
    Passes,
    Opens(Slot, u32, u32, Slot),
    CopiesOut(Slot, u32),
}

// A slot that the sweep took, after it passed so many: copied out where it is dirty, else opened.
fn take(l: Label, table: &[u32], flags: u32, s: Slot, passed: u32) -> Turn
    requires table_len { length table.now ≡ table_length l }
    requires s_lt_slots { s.0 < l.slots }
    ensures { Ok result ≡ take_turn l table.now flags (swept_after s passed) }
{
    let dirty = table[2 * (s.0 as usize) + 1] / 2 % 2;
    if dirty == 1 {
        return Turn::CopiesOut(s, passed);
    }
    let hand = sweep::next_slot(l, s);
    Turn::Opens(s, flags, passed, hand)
}

// How many open slots count against a caller's most, 8: the import's, for the import; people have no most.
pub fn held(state: Record, caller: u32) -> u32
    requires { record_test state ≡ true }
    ensures { result ≡ held_by caller state }
{
    if caller != IMPORT {
        return 0;
    }
    let callers = state.callers;
    window::open_by_import(callers, state.count)
}

// What refuses another slot, where so many are open and so many of these count against the caller's most: 17, then 11; nothing where there
// is room.
pub fn crowded(all: u32, mine: u32) -> Option<Refusal>
    ensures { result ≡ crowd_by all mine }
{
    if IMPORT_MOST <= mine {
        return Some(Refusal::ImportFull);
    }
    if (WINDOW as u32) <= all {
        return Some(Refusal::WindowFull);
    }
    None
}

// A block that is not cached: a slot is swept for, to be opened with these flags, unless another slot is refused.
fn sweeps(
    l: Label,
    table: &[u32],
    hand: Slot,
    full: Option<Refusal>,
    flags: u32,
) -> Result<Turn, Refusal>
    requires { Sweepable l table.now hand }
    ensures { result ≡ sweep_turn l table.now hand full flags }
{
    if let Some(refusal) = full {
        return Err(refusal);
    }
    match sweep::sweep(l, table, hand) {
        Some(swept) => Ok(take(l, table, flags, swept.slot, swept.passed)),
        None => Err(Refusal::AllOpen),
    }
}

// A clean block's slot: it is opened where it is, and the hand stays, unless another slot is refused.
fn opens_clean(
    l: Label,
    table: &[u32],
    hand: Slot,
    full: Option<Refusal>,
    s: Slot,
) -> Result<Turn, Refusal>
    requires sweepable { Sweepable l table.now hand }
    requires s_lt_slots { s.0 < l.slots }
    ensures { result ≡ clean_turn table.now hand full s }
{
    if let Some(refusal) = full {
        return Err(refusal);
    }
    let flags = table[2 * (s.0 as usize) + 1] + 6;
    Ok(Turn::Opens(s, flags, 0, hand))
}

// The turn of an offer of a block in this condition, with the hand here, where this refuses another slot, if anything does. A list of offers
// asks this at each place: no record is passed, which would be copied.
pub fn offer_at(
    l: Label,
    table: &[u32],
    hand: Slot,
    full: Option<Refusal>,
    condition: Condition,
) -> Result<Turn, Refusal>
    requires sweepable { Sweepable l table.now hand }
    requires within { Within l.slots condition }
    ensures { result ≡ offer_turn_at l table.now hand full condition }
{
    match condition {
        Condition::NotCached => sweeps(l, table, hand, full, 7),
        Condition::Clean(s) => opens_clean(l, table, hand, full, s),
        Condition::Dirty(_) => Ok(Turn::Passes),
        Condition::Writing(_) => Err(Refusal::SlotOpen),
        Condition::Fetching(_) => Err(Refusal::SlotOpen),
    }
}

// The turn of a fetch of a block in this condition, likewise.
pub fn fetch_at(
    l: Label,
    table: &[u32],
    hand: Slot,
    full: Option<Refusal>,
    condition: Condition,
) -> Result<Turn, Refusal>
    requires { Sweepable l table.now hand }
    ensures { result ≡ fetch_turn_at l table.now hand full condition }
{
    match condition {
        Condition::NotCached => sweeps(l, table, hand, full, 5),
        Condition::Clean(_) => Err(Refusal::HasSlot),
        Condition::Dirty(_) => Err(Refusal::HasSlot),
        Condition::Writing(_) => Err(Refusal::SlotOpen),
        Condition::Fetching(_) => Err(Refusal::HasSlot),
    }
}

// Whether 13 refuses an offer or a fetch that would open a slot.
pub fn is_spent(l: Label, newest: u32) -> bool
    ensures { result ≡ spent l newest }
{
    stamps::opening_bound(l) <= newest
}

// The turn of a caller's offer of a block in this condition, while so many rows are writing.
pub fn offer(
    table: &[u32],
    state: Record,
    caller: u32,
    condition: Condition,
    writing: u32,
) -> Result<Turn, Refusal>
    requires seen { Seen table.now state writing }
    requires within { Within state.label.slots condition }
    ensures { result ≡ offer_turn table.now state caller condition }
{
    let full = crowded(writing, held(state, caller));
    offer_at(state.label, table, state.hand, full, condition)
}

// The turn of a caller's fetch of a block in this condition, while so many rows are writing.
pub fn fetch(
    table: &[u32],
    state: Record,
    caller: u32,
    condition: Condition,
    writing: u32,
) -> Result<Turn, Refusal>
    requires { Seen table.now state writing }
    ensures { result ≡ fetch_turn table.now state caller condition }
{
    let full = crowded(writing, held(state, caller));
    fetch_at(state.label, table, state.hand, full, condition)
}
