// The table's functions, and the judging of a box, on 57,600 rows; what each finds is printed.
#![tactic(auto)]

mod print;

use layout::{Block, Slot, WINDOW, Window, places};
use protocol::Condition;
use record::{Phase, Record, state};
use std::io;
use sweeping::sweep;
use table::rows;

// A word of a table whose row i holds block i, with other flags in the last 63 rows.
fn word(i: usize, flags: u32, last: u32) -> u32 {
    if i % 2 == 0 {
        (i / 2 % 65536) as u32
    } else if 115074 < i {
        last
    } else {
        flags
    }
}

fn fill(rt: &impl Print, table: &mut [u32], flags: u32, last: u32) -> io::Result<()> {
    print::named(rt, b"rows with flags ", flags)?;
    print::named(rt, b", the last 63 with ", last)?;
    print::text(rt, b"\n")?;
    for (i, x) in table.iter_mut().enumerate() {
        *x = word(i, flags, last);
    }
    Ok(())
}

// Sets a row, and says so.
fn put(rt: &impl Print, table: &mut [u32], slot: u32, block: u32, flags: u32) -> io::Result<()> {
    print::named(rt, b"row ", slot)?;
    print::named(rt, b" block ", block)?;
    print::named(rt, b" flags ", flags)?;
    print::text(rt, b"\n")?;
    let k = 2 * (slot as usize);
    if k + 1 < table.len() {
        table[k] = block;
        table[k + 1] = flags;
    }
    Ok(())
}

fn scan(rt: &impl Print, table: &[u32], block: u32) -> io::Result<()> {
    let l = places::label(57600, 16777216);
    if table.len() != places::table_length(l) {
        return Ok(());
    }
    let found = rows::scan(l, table, Block(block));
    print::named(rt, b"scan for ", block)?;
    match found {
        Some(found) => {
            print::named(rt, b" -> writing ", found.writing)?;
            print::named(rt, b" busy ", found.busy)?;
            print::named(rt, b" at ", found.at.map_or(l.slots, |s| s.0))?;
        }
        None => print::text(rt, b" -> not legal")?,
    }
    print::text(rt, b"\n")
}

// What a sweep takes; and how many slots it passed.
fn swept(rt: &impl Print, table: &[u32], hand: u32) -> io::Result<u32> {
    let l = places::label(57600, 16777216);
    if table.len() != places::table_length(l) {
        return Ok(0);
    }
    if l.slots <= hand {
        return Ok(0);
    }
    print::named(rt, b"sweep from ", hand)?;
    match sweep::sweep(l, table, Slot(hand)) {
        Some(found) => {
            print::named(rt, b" -> took ", found.slot.0)?;
            print::named(rt, b" after ", found.passed)?;
            Ok(found.passed)
        }
        None => {
            print::text(rt, b" -> all open")?;
            Ok(0)
        }
    }
}

// A sweep, and the used flags on its way cleared.
fn sweep_from(rt: &impl Print, table: &mut [u32], hand: u32) -> io::Result<()> {
    let passed = swept(rt, table, hand)?;
    print::text(rt, b"\n")?;
    let l = places::label(57600, 16777216);
    if table.len() != places::table_length(l) {
        return Ok(());
    }
    if l.slots <= hand {
        return Ok(());
    }
    sweep::clear_used(l, table, Slot(hand), passed);
    Ok(())
}

// A window of the last 63 slots.
fn last_slots() -> Window {
    let mut slots = [Slot(0); WINDOW];
    for i in 0..WINDOW {
        slots[i] = Slot(57537 + i as u32);
    }
    Window { slots, count: 63 }
}

// A record whose window is the last 63 slots.
fn full(hand: u32) -> Record {
    let l = places::label(57600, 16777216);
    let fresh = state::fresh(l, 7, Phase::Ready, last_slots());
    state::with_hand(fresh, Slot(hand))
}

fn condition(rt: &impl Print, k: Condition) -> io::Result<()> {
    match k {
        Condition::NotCached => print::text(rt, b", not cached"),
        Condition::Clean(s) => print::named(rt, b", clean in ", s.0),
        Condition::Dirty(s) => print::named(rt, b", dirty in ", s.0),
        Condition::Writing(s) => print::named(rt, b", open for writing in ", s.0),
        Condition::Fetching(s) => print::named(rt, b", open for fetch in ", s.0),
    }
}

// A box with such a record judged, as far as table and block go.
fn judged(rt: &impl Print, table: &[u32], hand: u32, block: u32) -> io::Result<()> {
    let l = places::label(57600, 16777216);
    let found = judging::judge_block(
        places::ssd_length(l),
        places::hdd_length(l),
        4096,
        table,
        full(hand),
        Block(block),
        0,
    );
    print::named(rt, b"hand ", hand)?;
    print::named(rt, b" block ", block)?;
    match found {
        Ok(judged) => {
            print::named(rt, b" -> writing ", judged.writing)?;
            condition(rt, judged.condition)?;
        }
        Err(refusal) => print::named(rt, b" -> refused ", refusal.number())?,
    }
    print::text(rt, b"\n")
}

fn free_and_clean(rt: &impl Print, table: &mut [u32]) -> io::Result<()> {
    scan(rt, table, 0)?;
    sweep_from(rt, table, 0)?;
    sweep_from(rt, table, 57599)?;
    fill(rt, table, 1, 1)?;
    scan(rt, table, 0)?;
    scan(rt, table, 57599)?;
    scan(rt, table, 57600)?;
    sweep_from(rt, table, 57599)
}

fn used(rt: &impl Print, table: &mut [u32]) -> io::Result<()> {
    fill(rt, table, 9, 9)?;
    sweep_from(rt, table, 57599)?;
    sweep_from(rt, table, 57598)?;
    fill(rt, table, 9, 9)?;
    put(rt, table, 57598, 57598, 1)?;
    sweep_from(rt, table, 57599)?;
    sweep_from(rt, table, 57597)
}

fn open(rt: &impl Print, table: &mut [u32]) -> io::Result<()> {
    fill(rt, table, 15, 15)?;
    scan(rt, table, 12345)?;
    sweep_from(rt, table, 0)?;
    put(rt, table, 12345, 12345, 11)?;
    scan(rt, table, 12345)?;
    sweep_from(rt, table, 12346)?;
    sweep_from(rt, table, 12346)
}

fn last_row(rt: &impl Print, table: &mut [u32]) -> io::Result<()> {
    fill(rt, table, 1, 1)?;
    put(rt, table, 57599, 57599, 2)?;
    scan(rt, table, 0)?;
    put(rt, table, 57599, 16777216, 1)?;
    scan(rt, table, 0)?;
    put(rt, table, 57599, 16777215, 7)?;
    scan(rt, table, 16777215)?;
    put(rt, table, 57599, 5, 1)?;
    scan(rt, table, 5)
}

// The window lists the last 63 slots, and they are open.
fn agreeing(rt: &impl Print, table: &mut [u32]) -> io::Result<()> {
    fill(rt, table, 1, 7)?;
    judged(rt, table, 57599, 57599)?;
    judged(rt, table, 57600, 57599)?;
    judged(rt, table, 0, 0)?;
    judged(rt, table, 0, 16777215)?;
    judged(rt, table, 0, 16777216)
}

// One open row too many; none; one too few.
fn disagreeing(rt: &impl Print, table: &mut [u32]) -> io::Result<()> {
    put(rt, table, 0, 0, 7)?;
    judged(rt, table, 0, 0)?;
    put(rt, table, 0, 0, 3)?;
    judged(rt, table, 0, 0)?;
    put(rt, table, 57599, 57599, 3)?;
    judged(rt, table, 0, 0)
}

fn on(rt: &impl Print, table: &mut [u32]) -> io::Result<()> {
    free_and_clean(rt, table)?;
    used(rt, table)?;
    open(rt, table)?;
    last_row(rt, table)?;
    agreeing(rt, table)?;
    disagreeing(rt, table)
}

fn main(rt: HostRuntime) -> io::Result<()> {
    print::text(&rt, b"57600 rows\n")?;
    let mut table = [0u32; 115200];
    on(&rt, &mut table)
}
