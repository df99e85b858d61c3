// The sweep for a slot: the slot is found first, with nothing changed; then the used flags on its way are cleared.
ghost use Rattle.std.specs.Prelude.{◌≡◌, Bool, true, false, ℕ, ◌+◌, ◌*◌, ◌≤◌, ◌<◌, length};
ghost use Rattle.layout.specs.Places.{table_length};
ghost use Rattle.protocol.specs.Sweep.{next_slot};
ghost use Rattle.sweeping.specs.Sweeps.{slot_past, closed, unused, first_closed, lap_end, swept_of, passed, cleared_from};

use crate::Swept;
use layout::{Label, Slot};

// The slot one past s, wrapping.
pub fn next_slot(l: Label, s: Slot) -> Slot
    requires { s.0 < l.slots }
    ensures { (result ≡ next_slot l s) × (result.0 < l.slots) }
{
    let n = s.0 + 1;
    if n < l.slots { Slot(n) } else { Slot(0) }
}

// The slot k past s, wrapping.
fn slot_past(l: Label, s: Slot, k: u32) -> Slot
    requires { (s.0 < l.slots) × (k < l.slots) }
    ensures { (result ≡ slot_past k l s) × (result.0 < l.slots) }
{
    let left = l.slots - s.0;
    if k < left {
        Slot(s.0 + k)
    } else {
        Slot(k - left)
    }
}

// Whether a row is not open.
fn is_closed(flags: u32) -> bool
    ensures { result ≡ closed flags }
{
    flags / 4 % 2 != 1
}

// Whether a row is neither open nor used.
fn is_unused(flags: u32) -> bool
    ensures { result ≡ unused flags }
{
    is_closed(flags) & (flags / 8 % 2 != 1)
}

// The slot found before, or else this one where it is closed.
fn first_closed(before: Option<Slot>, here: Slot, closed: bool) -> Option<Slot>
    ensures { result ≡ first_closed before here closed }
{
    match before {
        Some(s) => Some(s),
        None => if closed { Some(here) } else { None },
    }
}

// What a round ends in that met no unused slot.
fn lap_end(slots: u32, first: Option<Slot>) -> Option<Swept>
    ensures { result ≡ lap_end slots first }
{
    match first {
        Some(slot) => Some(Swept {
            slot,
            passed: slots,
        }),
        None => None,
    }
}

// The slot that a sweep from the hand takes; none where all are open. Each slot is worked out from the hand, so that none waits for
// the one before.
pub fn sweep(l: Label, table: &[u32], hand: Slot) -> Option<Swept>
    requires { (length table.now ≡ table_length l) × (hand.0 < l.slots) }
    ensures { result ≡ swept_of l table.now hand }
{
    let slots = l.slots;
    let mut first: Option<Slot> = None;
    for k in 0..slots {
        let s = slot_past(l, hand, k);
        let flags = table[2 * (s.0 as usize) + 1];
        if is_unused(flags) {
            return Some(Swept { slot: s, passed: k });
        }
        first = first_closed(first, s, is_closed(flags));
    }
    lap_end(slots, first)
}

// Flags as a sweep leaves them that passes: of an open slot as they are.
fn flags_passed(flags: u32) -> u32
    ensures { result ≡ passed flags }
{
    if is_closed(flags) & (flags / 8 % 2 == 1) {
        flags - 8
    } else {
        flags
    }
}

// The used flags of n slots from the hand on are cleared, but for open slots.
pub fn clear_used(l: Label, table: &mut [u32], hand: Slot, n: u32)
    requires { (length table.old ≡ table_length l) × (hand.0 < l.slots) }
    ensures { table.new ≡ cleared_from n l table.old hand }
{
    let mut s = hand;
    for _ in 0..n {
        let i = 2 * (s.0 as usize) + 1;
        table[i] = flags_passed(table[i]);
        s = next_slot(l, s);
    }
}
