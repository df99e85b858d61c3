// The record as 134 words: slots, blocks, hand, newest, phase, steps done, unsettled, count, then 63 window slots, then their callers.
ghost use Rattle.std.specs.Prelude.{◌≡◌, ◌+◌, ◌<◌, ◌++◌, length, take, drop};
ghost use Rattle.layout.specs.Window.{window_most};
ghost use Rattle.c_record.specs.Words.{record_words, phase_word, steps_word, flag_word, phase_in, slots_of, numbers_of, words_of, unpacked, record_in, is_phase, is_record};

use crate::RECORD_WORDS;
use layout::{Slot, WINDOW, places};
use record::{Phase, Record};

// Whether two words are a phase.
fn is_phase(phase: u32, steps: u32) -> bool
    ensures { result ≡ is_phase phase steps }
{
    (phase == 0) | ((phase <= 2) & (steps == 0))
}

// Whether words are a record.
pub fn is_record(words: &[u32]) -> bool
    ensures { result ≡ is_record words.now }
{
    if words.len() != RECORD_WORDS {
        return false;
    }
    if !is_phase(words[4], words[5]) {
        return false;
    }
    words[6] <= 1
}

// The phase of two words.
fn phase_in(phase: u32, steps: u32) -> Phase
    ensures { result ≡ phase_in phase steps }
{
    match phase {
        0 => Phase::Formatting(steps),
        1 => Phase::Recovering,
        _ => Phase::Ready,
    }
}

// The window's array.
fn window_in(words: &[u32]) -> [Slot; WINDOW]
    requires { length words.now ≡ record_words }
    ensures { result ≡ slots_of (take window_most (drop 8 words.now)) }
{
    let mut window = [Slot(0); WINDOW];
    for i in 0..WINDOW {
        window[i] = Slot(words[8 + i]);
    }
    window
}

// The callers of its places.
fn callers_in(words: &[u32]) -> [u32; WINDOW]
    requires { length words.now ≡ record_words }
    ensures { result ≡ drop 71 words.now }
{
    let mut callers = [0u32; WINDOW];
    callers.copy_from_slice(&words[71..]);
    callers
}

// The record that 134 words hold, whatever they are.
pub fn unpack(words: &[u32]) -> Record
    requires { length words.now ≡ record_words }
    ensures { result ≡ unpacked words.now }
{
    Record {
        label: places::label(words[0], words[1]),
        hand: Slot(words[2]),
        newest: words[3],
        phase: phase_in(words[4], words[5]),
        unconfirmed: words[6] == 1,
        window: window_in(words),
        count: words[7],
        callers: callers_in(words),
    }
}

// The record that words hold, if they are one.
pub fn record_in(words: &[u32]) -> Option<Record>
    ensures { result ≡ record_in words.now }
{
    if is_record(words) {
        Some(unpack(words))
    } else {
        None
    }
}

// A phase's word.
fn phase_word(phase: Phase) -> u32
    ensures { result ≡ phase_word phase }
{
    match phase {
        Phase::Formatting(_) => 0,
        Phase::Recovering => 1,
        Phase::Ready => 2,
    }
}

// The word of the steps done.
fn steps_word(phase: Phase) -> u32
    ensures { result ≡ steps_word phase }
{
    match phase {
        Phase::Formatting(done) => done,
        Phase::Recovering | Phase::Ready => 0,
    }
}

// The word of unsettled.
fn flag_word(unconfirmed: bool) -> u32
    ensures { result ≡ flag_word unconfirmed }
{
    u32::from(unconfirmed)
}

// Writes the window's slots, from word 8 on.
fn pack_window(words: &mut [u32], window: [Slot; WINDOW])
    requires { length words.old ≡ record_words }
    ensures { words.new ≡ (take 8 words.old ++ numbers_of window) ++ drop 71 words.old }
{
    for i in 0..WINDOW {
        words[8 + i] = window[i].0;
    }
}

// Writes their callers, from word 71 on.
fn pack_callers(words: &mut [u32], callers: [u32; WINDOW])
    requires { length words.old ≡ record_words }
    ensures { words.new ≡ take 71 words.old ++ callers }
{
    words[71..].copy_from_slice(&callers);
}

// Writes a record over 134 words.
pub fn pack(words: &mut [u32], r: Record)
    requires { length words.old ≡ record_words }
    ensures { words.new ≡ words_of r }
{
    let l = r.label;
    let hand = r.hand;
    let phase = r.phase;
    let window = r.window;
    let callers = r.callers;
    let phase_at = phase_word(phase);
    let steps = steps_word(phase);
    let unconfirmed = flag_word(r.unconfirmed);
    words[0] = l.slots;
    words[1] = l.blocks;
    words[2] = hand.0;
    words[3] = r.newest;
    words[4] = phase_at;
    words[5] = steps;
    words[6] = unconfirmed;
    words[7] = r.count;
    pack_window(words, window);
    pack_callers(words, callers);
}
