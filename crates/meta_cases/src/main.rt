// Metadata pages that are legal, and pages with one thing wrong, each judged on a line of its own. Slots 4 and blocks 8
// unless a line says otherwise. Then pages that are read down to each row of the page table.
#![tactic(auto)]

ghost use Rattle.std.specs.Prelude.{◌≤◌, ◌<◌, ◌^◌};

use layout::{Slot, WINDOW, Window, places};
use metadata::page;
use std::io;

// Judges page p of a box of so many slots.
fn judged(rt: &impl Print, name: &[u8], slots: u32, p: u32, page: [u8; 4096]) -> io::Result<()>
    requires { p < 2 ^ 16 }
{
    rt.write_all(name)?;
    if page_rule::legal_page(places::label(slots, 8), p, &page) {
        println!(rt; ": legal")
    } else {
        println!(rt; ": refused")
    }
}

// A page with one byte changed, judged as page 0 of 4 slots.
fn changed(rt: &impl Print, name: &[u8], page: [u8; 4096], at: usize, value: u8) -> io::Result<()>
    requires { at < 4096 }
{
    let mut other = page;
    other[at] = value;
    judged(rt, name, 4, 0, other)
}

// A page of 4 slots, whose first has a block: stamp, a window of up to two slots, and that row.
fn page_of(stamp: u32, first: u32, second: u32, count: u32, block: u32, flags: u32) -> [u8; 4096]
    requires { count ≤ 63 }
{
    let mut slots = [Slot(0); WINDOW];
    slots[0] = Slot(first);
    slots[1] = Slot(second);
    let rows = [block, flags, 0, 0, 0, 0, 0, 0];
    page::encode_meta(stamp, Window { slots, count }, &rows)
}

// A page whose window lists slots 0 to 62.
fn wide_page() -> [u8; 4096] {
    let mut slots = [Slot(0); WINDOW];
    for i in 0..WINDOW {
        slots[i] = Slot(i as u32);
    }
    let rows = [5, 7, 0, 0];
    page::encode_meta(7, Window { slots, count: 63 }, &rows)
}

// The fields in the page table's order, each zero range at both ends.
fn zero_cases(rt: &impl Print) -> io::Result<()> {
    let good = page_of(7, 0, 0, 1, 5, 7);
    changed(rt, b"byte 6 not zero", good, 6, 1)?;
    changed(rt, b"byte 15 not zero", good, 15, 128)?;
    changed(rt, b"byte 20, past the window, not zero", good, 20, 1)?;
    changed(rt, b"byte 267, past the window, not zero", good, 267, 64)
}

fn zero_cases_after(rt: &impl Print) -> io::Result<()> {
    let good = page_of(7, 0, 0, 1, 5, 7);
    changed(rt, b"byte 268 not zero", good, 268, 1)?;
    changed(rt, b"byte 511 not zero", good, 511, 2)?;
    changed(rt, b"entry byte 5 not zero", good, 517, 1)?;
    changed(rt, b"entry byte 6 not zero", good, 518, 4)?;
    changed(rt, b"entry byte 7 not zero", good, 519, 128)
}

fn zero_cases_last(rt: &impl Print) -> io::Result<()> {
    let good = page_of(7, 0, 0, 1, 5, 7);
    changed(rt, b"last entry's flags not zero", good, 2428, 1)?;
    changed(rt, b"last entry's last byte not zero", good, 2431, 1)?;
    changed(rt, b"byte 2432 not zero", good, 2432, 1)?;
    changed(rt, b"byte 4095 not zero", good, 4095, 16)
}

fn window_cases(rt: &impl Print) -> io::Result<()> {
    judged(
        rt,
        b"stamp 0 with a window",
        4,
        0,
        page_of(0, 0, 0, 1, 5, 7),
    )?;
    judged(rt, b"stamp 0 without", 4, 0, page_of(0, 0, 0, 0, 5, 3))?;
    judged(
        rt,
        b"stamp 4294967295",
        4,
        0,
        page_of(4294967295, 0, 0, 1, 5, 7),
    )?;
    judged(rt, b"two slots", 4, 0, page_of(7, 3, 0, 2, 5, 7))?;
    judged(rt, b"a slot twice", 4, 0, page_of(7, 3, 3, 2, 5, 7))
}

fn window_slot_cases(rt: &impl Print) -> io::Result<()> {
    judged(rt, b"slot 3 of 4", 4, 0, page_of(7, 3, 0, 1, 5, 7))?;
    judged(rt, b"slot 4 of 4", 4, 0, page_of(7, 4, 0, 1, 5, 7))?;
    changed(rt, b"window length 257", page_of(7, 0, 0, 1, 5, 7), 5, 1)
}

fn window_length_cases(rt: &impl Print) -> io::Result<()> {
    let mut wide = wide_page();
    judged(rt, b"slots 64, window of 63", 64, 0, wide)?;
    judged(rt, b"slots 62, window of 63", 62, 0, wide)?;
    wide[4] = 64;
    wide[268] = 63;
    judged(rt, b"slots 64, window of 64", 64, 0, wide)
}

fn flags_cases(rt: &impl Print) -> io::Result<()> {
    let good = page_of(7, 0, 0, 1, 5, 7);
    changed(rt, b"flags 1", good, 516, 1)?;
    changed(rt, b"flags 2", good, 516, 2)?;
    changed(rt, b"flags 3", good, 516, 3)?;
    changed(rt, b"flags 4", good, 516, 4)?;
    changed(rt, b"flags 5", good, 516, 5)
}

fn flags_cases_beyond(rt: &impl Print) -> io::Result<()> {
    let good = page_of(7, 0, 0, 1, 5, 7);
    changed(rt, b"flags 6", good, 516, 6)?;
    changed(rt, b"flags 7", good, 516, 7)?;
    changed(rt, b"flags 8", good, 516, 8)?;
    changed(rt, b"flags 9", good, 516, 9)?;
    changed(rt, b"flags 255", good, 516, 255)
}

fn entry_cases(rt: &impl Print) -> io::Result<()> {
    let good = page_of(7, 0, 0, 1, 5, 7);
    changed(rt, b"flags 0 with a block", good, 516, 0)?;
    judged(rt, b"flags 0 without", 4, 0, page_of(7, 0, 0, 1, 0, 0))?;
    judged(rt, b"a row's used flag", 4, 0, page_of(7, 0, 0, 1, 5, 15))
}

fn block_cases(rt: &impl Print) -> io::Result<()> {
    let good = page_of(7, 0, 0, 1, 5, 7);
    judged(rt, b"block 7 of 8", 4, 0, page_of(7, 0, 0, 1, 7, 7))?;
    judged(rt, b"block 8 of 8", 4, 0, page_of(7, 0, 0, 1, 8, 7))?;
    changed(rt, b"block 16777221", good, 515, 1)?;
    changed(rt, b"entry of slot 3", good, 540, 1)?;
    changed(rt, b"entry of slot 4, past the last", good, 548, 1)
}

// Page 1 of 241 slots holds slot 240 alone.
fn second_page_cases(rt: &impl Print) -> io::Result<()> {
    let mut page = page_of(2, 240, 0, 1, 6, 7);
    judged(rt, b"slots 241, page 1", 241, 1, page)?;
    judged(rt, b"slots 240, page 1", 240, 1, page)?;
    page[524] = 1;
    judged(rt, b"slots 241, page 1, entry of slot 241", 241, 1, page)?;
    judged(rt, b"slots 242, page 1, entry of slot 241", 242, 1, page)
}

// Reads page 0 of 4 slots down to a row of the page table.
fn read_row(rt: &impl Print, page: [u8; 4096], rows: u32) -> io::Result<()> {
    if page_rule::read_down(places::label(4, 8), 0, &page, rows) {
        print!(rt; " passes")
    } else {
        print!(rt; " refused")
    }
}

// The answers for rows 1 to 7, on one line.
fn read_rows(rt: &impl Print, name: &[u8], page: [u8; 4096]) -> io::Result<()> {
    rt.write_all(name)?;
    print!(rt; ":")?;
    for rows in 1..=7 {
        read_row(rt, page, rows)?;
    }
    println!(rt)
}

// The same of a page with one byte changed: stamp 7, slots 0 and 3 in the window, block 5 open for writing in slot 0.
fn read_changed(rt: &impl Print, name: &[u8], at: usize, value: u8) -> io::Result<()>
    requires { at < 4096 }
{
    let mut page = page_of(7, 0, 3, 2, 5, 7);
    page[at] = value;
    read_rows(rt, name, page)
}

// A legal page, and one broken in each of rows 2 to 7.
fn row_cases(rt: &impl Print) -> io::Result<()> {
    read_rows(rt, b"legal", page_of(7, 0, 3, 2, 5, 7))?;
    read_changed(rt, b"row 2, stamp 0 with a window", 0, 0)?;
    read_changed(rt, b"row 3, byte 6", 6, 1)?;
    read_changed(rt, b"row 4, slot 4 of 4", 20, 4)?;
    read_changed(rt, b"row 5, byte 268", 268, 1)?;
    read_changed(rt, b"row 6, flags 2", 516, 2)?;
    read_changed(rt, b"row 7, byte 2432", 2432, 1)
}

fn main(rt: HostRuntime) -> io::Result<()> {
    judged(&rt, b"good page", 4, 0, page_of(7, 0, 0, 1, 5, 7))?;
    zero_cases(&rt)?;
    zero_cases_after(&rt)?;
    zero_cases_last(&rt)?;
    window_cases(&rt)?;
    window_slot_cases(&rt)?;
    window_length_cases(&rt)?;
    flags_cases(&rt)?;
    flags_cases_beyond(&rt)?;
    entry_cases(&rt)?;
    block_cases(&rt)?;
    second_page_cases(&rt)?;
    row_cases(&rt)
}
