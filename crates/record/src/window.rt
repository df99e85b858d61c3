// Windows: a slot is looked for, joins, or leaves, with the caller of its place.
ghost use Rattle.std.specs.Prelude.{◌≡◌, true, false, [], ◌∷◌, ◌++◌, ◌+◌, ◌≤◌, ◌<◌, take, drop, eqb};
ghost use Rattle.layout.specs.Numbers.{choose};
ghost use Rattle.layout.specs.PageRule.{listed};
ghost use Rattle.layout.specs.Window.{window_most, slots_in, array_of, window_from, ZeroPast};
ghost use Rattle.record.specs.Window.{without, beside};
ghost use Rattle.record.specs.Callers.{import_caller, open_by, caller_array};

use crate::IMPORT;
use layout::{Slot, WINDOW, Window};

// A window's slots, and the callers of their places.
#[derive(Clone, Copy)]
pub struct Places {
    pub slots: [Slot; WINDOW],
    pub callers: [u32; WINDOW],
}

// A window with no slot.
pub fn empty() -> Window
    ensures { result ≡ window_from [] }
{
    Window {
        slots: [Slot(0); WINDOW],
        count: 0,
    }
}

// The window with a slot added at its end.
pub fn join(w: Window, s: Slot) -> Window
    requires zero_past { ZeroPast w }
    requires count_lt_window_most { w.count < window_most }
    ensures { result ≡ window_from (slots_in w ++ (s ∷ [])) }
{
    let at = w.count;
    let mut next = w;
    next.slots[at as usize] = s;
    next.count = at + 1;
    next
}

// The places of a window without one of its slots: those after it move up, each with its caller.
pub fn leave(w: Window, callers: [u32; WINDOW], s: Slot) -> Places
    requires count_le_window_most { w.count ≤ window_most }
    requires w_value { listed s (slots_in w) ≡ true }
    ensures { result ≡ record { slots = array_of (without s (slots_in w)); callers = caller_array (beside s (slots_in w) (take w.count callers)) } }
{
    let last = (w.count as usize) - 1;
    let mut slots = [Slot(0); WINDOW];
    let mut named = [0u32; WINDOW];
    let mut gone = false;
    for i in 0..last {
        gone |= w.slots[i] == s;
        let k = i + usize::from(gone);
        slots[i] = w.slots[k];
        named[i] = callers[k];
    }
    Places {
        slots,
        callers: named,
    }
}

// How many of the first `count` places are the import's.
pub fn open_by_import(callers: [u32; WINDOW], count: u32) -> u32
    requires { count ≤ window_most }
    ensures { result ≡ open_by import_caller (take count callers) }
{
    let named = &callers[..count as usize];
    named.iter().filter(|c| **c == IMPORT).count() as u32
}
