// Records made and changed. No other module spells a record's fields out, but the run of a list, which changes one where it stands.
ghost use Rattle.std.specs.Prelude.{◌≡◌, true, false, [], ◌∷◌, ◌++◌, ◌<◌};
ghost use Rattle.layout.specs.PageRule.{listed};
ghost use Rattle.layout.specs.Window.{window_most};
ghost use Rattle.record.specs.Window.{without, beside};
ghost use Rattle.record.specs.Record.{window_of, window_in, callers_in, record_with, with_hand, with_phase, with_stamp, put_window, with_window, with_callers};
ghost use Rattle.record.specs.Rule.{record_test};

use crate::{Phase, Record, window};
use layout::{Label, Slot, WINDOW, Window};

// The record's window.
pub fn window_of(r: Record) -> Window
    ensures { result ≡ window_of r }
{
    let slots = r.window;
    Window {
        slots,
        count: r.count,
    }
}

// A record with the hand on slot 0, settled, and no caller named.
pub fn fresh(l: Label, newest: u32, phase: Phase, w: Window) -> Record
    ensures { result ≡ record_with l (record { 0 = 0 }) newest phase false w }
{
    let slots = w.slots;
    Record {
        label: l,
        hand: Slot(0),
        newest,
        phase,
        unconfirmed: false,
        window: slots,
        count: w.count,
        callers: [0u32; WINDOW],
    }
}

// The record with another hand.
pub fn with_hand(r: Record, hand: Slot) -> Record
    ensures { result ≡ with_hand r hand }
{
    let mut next = r;
    next.hand = hand;
    next
}

// The record in another phase.
pub fn with_phase(r: Record, phase: Phase) -> Record
    ensures { result ≡ with_phase r phase }
{
    let mut next = r;
    next.phase = phase;
    next
}

// The record with the stamp of a metadata store.
pub fn with_stamp(r: Record, stamp: u32) -> Record
    ensures { result ≡ with_stamp r stamp }
{
    let mut next = r;
    next.newest = stamp;
    next.unconfirmed = false;
    next
}

// The record with another window.
pub fn with_window(r: Record, unconfirmed: bool, w: Window) -> Record
    ensures { result ≡ put_window r unconfirmed w }
{
    let slots = w.slots;
    let mut next = r;
    next.unconfirmed = unconfirmed;
    next.window = slots;
    next.count = w.count;
    next
}

// The record with another hand and a slot added to its window, its caller beside it.
pub fn joined(r: Record, s: Slot, caller: u32, hand: Slot) -> Record
    requires r_value { record_test r ≡ true }
    requires count_lt_window_most { r.count < window_most }
    ensures { result ≡ with_callers (with_window (with_hand r hand) r.unconfirmed (window_in r ++ (s ∷ []))) (callers_in r ++ (caller ∷ [])) }
{
    let at = r.count as usize;
    let mut next = r;
    next.hand = hand;
    next.window[at] = s;
    next.callers[at] = caller;
    next.count = r.count + 1;
    next
}

// The record, unsettled, without a slot of its window and without its caller.
pub fn left(r: Record, s: Slot) -> Record
    requires r_value { record_test r ≡ true }
    requires r_value_2 { listed s (window_in r) ≡ true }
    ensures { result ≡ with_callers (with_window r true (without s (window_in r))) (beside s (window_in r) (callers_in r)) }
{
    let left = window::leave(window_of(r), r.callers, s);
    let slots = left.slots;
    let named = left.callers;
    let mut next = r;
    next.unconfirmed = true;
    next.window = slots;
    next.count = r.count - 1;
    next.callers = named;
    next
}
