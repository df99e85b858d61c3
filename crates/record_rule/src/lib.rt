// The record's rule (document 01's table, number 3).
#![tactic(auto)]

ghost use Rattle.std.specs.Prelude.{◌≡◌, true, false, ◌&&◌, ◌+◌, ◌≤◌, ◌<◌, length, take, drop, eqb, leb};
ghost use Rattle.layout.specs.PageRule.{listed, distinct, in_range};
ghost use Rattle.layout.specs.Window.{window_most, slots_in};
ghost use Rattle.record.specs.Window.{each_place, zero_slots};
ghost use Rattle.record.specs.Callers.{import_caller, named_places, callers_test};
ghost use Rattle.record.specs.Rule.{steps_test, record_test};

use layout::{Label, Slot, WINDOW, Window, places};
use record::{IMPORT, Phase, Record, state};

// Whether slots are in range.
fn in_range(l: Label, slots: &[Slot]) -> bool
    ensures { result ≡ in_range l slots.now }
{
    slots.iter().all(|s| s.0 < l.slots)
}

// Whether slots are distinct: none of them is among those before it. Each leaves a mark, by its number modulo 256, so that only
// slots that share a mark are compared.
fn distinct_slots(slots: &[Slot]) -> bool
    ensures { result ≡ distinct slots.now }
{
    let mut marks = [false; 256];
    for i in 0..slots.len() {
        let s = slots[i];
        let m = (s.0 % 256) as usize;
        if marks[m] && slots[..i].contains(&s) {
            return false;
        }
        marks[m] = true;
    }
    true
}

// Whether slots are zero.
fn zero(slots: &[Slot]) -> bool
    ensures { result ≡ zero_slots slots.now }
{
    slots.iter().all(|s| s.0 == 0)
}

// Whether a window keeps its rule: slots in range and distinct, and zero past its length.
fn window_ok(l: Label, w: Window) -> bool
    requires { w.count ≤ window_most }
    ensures { result ≡ (eqb (length w.slots) window_most && (in_range l (slots_in w) && (distinct (slots_in w) && zero_slots (drop w.count w.slots)))) }
{
    let slots = w.slots();
    in_range(l, slots) && distinct_slots(slots) && zero(&w.slots[w.count as usize..])
}

// Whether the number of a format's steps done is in range.
fn steps_ok(l: Label, phase: Phase) -> bool
    ensures { result ≡ steps_test l phase }
{
    match phase {
        Phase::Formatting(done) => done <= places::meta_span(l) + 1,
        Phase::Recovering | Phase::Ready => true,
    }
}

// Whether no caller is above `most`. No caller ends it early, so that the compiler takes several at a time.
fn at_most(callers: &[u32], most: u32) -> bool
    ensures { result ≡ each_place (λ c. leb c most) callers.now }
{
    let mut ok = true;
    for c in callers {
        ok &= *c <= most;
    }
    ok
}

// How many places may name another caller than 0.
fn named_places(phase: Phase, count: u32) -> u32
    ensures { result ≡ named_places phase count }
{
    match phase {
        Phase::Recovering => 0,
        Phase::Formatting(_) | Phase::Ready => count,
    }
}

// Whether the callers keep their rule, where the first `named` places may name one.
fn callers_ok(callers: &[u32; WINDOW], named: u32) -> bool
    requires { named ≤ window_most }
    ensures { result ≡ callers_test named callers.now }
{
    let n = named as usize;
    at_most(&callers[..n], IMPORT) && at_most(&callers[n..], 0)
}

// Whether a record keeps its rule.
pub fn record_ok(r: Record) -> bool
    ensures { result ≡ record_test r }
{
    let l = r.label;
    if !places::within_limits(l) {
        return false;
    }
    let hand = r.hand;
    if l.slots <= hand.0 {
        return false;
    }
    if !steps_ok(l, r.phase) {
        return false;
    }
    if (WINDOW as u32) < r.count {
        return false;
    }
    if !window_ok(l, state::window_of(r)) {
        return false;
    }
    callers_ok(&r.callers, named_places(r.phase, r.count))
}
