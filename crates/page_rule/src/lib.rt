// Judging a metadata page, row by row of document 01's page table and in its order.
#![tactic(auto)]

ghost use Rattle.std.specs.Prelude.{◌≡◌, ◌&&◌, ◌+◌, ◌^◌, ◌≤◌, ◌<◌, length, drop};
ghost use Rattle.layout.specs.Places.{slot_on};
ghost use Rattle.layout.specs.Window.{window_most};
ghost use Rattle.layout.specs.MetaPage.{count_of, window_of, entry_part};
ghost use Rattle.layout.specs.PageRule.{count_test, listed, distinct, in_range, window_test, pair_test, entry_test, entries_test, read_down, page_test};

use layout::{Label, Slot, WINDOW, zeros};
use metadata::page;

// 4..5: the window's length, and that stamp 0 goes with an empty window.
fn legal_count(page: &[u8]) -> bool
    requires { length page.now ≡ 4096 }
    ensures { result ≡ count_test page.now }
{
    let count = page::count_of(page);
    count <= WINDOW as u32 && (page::stamp_of(page) != 0 || count == 0)
}

// Whether slot s is in the window from place k on.
fn listed_from(s: Slot, page: &[u8], count: u32, k: u32) -> bool
    requires page_len { length page.now ≡ 4096 }
    requires count_value { count ≡ count_of page.now }
    requires count_le_window_most { count ≤ window_most }
    requires k_le_count { k ≤ count }
    ensures { result ≡ listed s (drop k (window_of page.now)) }
{
    (k..count).any(|m| s == page::slot_at(page, m))
}

// Whether the window's slots are in range and distinct: none of them is listed again after it.
fn legal_slots(l: Label, page: &[u8], count: u32) -> bool
    requires page_len { length page.now ≡ 4096 }
    requires count_value { count ≡ count_of page.now }
    requires count_le_window_most { count ≤ window_most }
    ensures { result ≡ (in_range l (window_of page.now) && distinct (window_of page.now)) }
{
    for k in 0..count {
        let s = page::slot_at(page, k);
        if l.slots <= s.0 || listed_from(s, page, count, k + 1) {
            return false;
        }
    }
    true
}

// 16..267: the window's slots, and zero past its length.
fn legal_window(l: Label, page: &[u8]) -> bool
    requires page_len { length page.now ≡ 4096 }
    requires page_bound { count_of page.now ≤ window_most }
    ensures { result ≡ window_test l page.now }
{
    let count = page::count_of(page);
    legal_slots(l, page, count) && zeros::all_zero(page, 16 + 4 * (count as usize), 268)
}

// The rule of a stored entry's block and flags: "legal sums 0, 1, 3, 5, 7".
pub fn legal_pair(l: Label, block: u32, flags: u32) -> bool
    ensures { result ≡ pair_test l block flags }
{
    match flags {
        0 => block == 0,
        1 | 3 | 5 | 7 => block < l.blocks,
        _ => false,
    }
}

// Entry i of page p.
fn legal_entry(l: Label, p: u32, page: &[u8], i: u32) -> bool
    requires page_len { length page.now ≡ 4096 }
    requires p_bound { p < 2 ^ 16 }
    requires i_bound { i < 240 }
    ensures { result ≡ entry_test l (slot_on p i) (entry_part page.now i) }
{
    let entry = page::entry_at(page, i);
    let at = 512 + 8 * (i as usize);
    legal_pair(l, entry.block.0, entry.flags)
        && zeros::all_zero(page, at + 5, at + 8)
        && (240 * p + i < l.slots || entry.flags == 0)
}

// 512..2431: the entries of page p.
fn legal_entries(l: Label, p: u32, page: &[u8]) -> bool
    requires page_len { length page.now ≡ 4096 }
    requires p_bound { p < 2 ^ 16 }
    ensures { result ≡ entries_test l p page.now }
{
    (0..240).all(|i| legal_entry(l, p, page, i))
}

// Reads metadata page p down to a row of the page table, field by field in its order: whether it passes so far. (The stamp alone, row 1,
// has no rule.)
pub fn read_down(l: Label, p: u32, page: &[u8], rows: u32) -> bool
    requires page_len { length page.now ≡ 4096 }
    requires p_bound { p < 2 ^ 16 }
    ensures { result ≡ read_down rows l p page.now }
{
    // Kept: tried as one `&&` of `rows < 2 || ..`: its joins forget the rows that passed, on which row 4 rests; the proof did not close.
    if rows < 2 {
        return true;
    }
    if !legal_count(page) {
        return false;
    }
    if rows < 3 {
        return true;
    }
    if !zeros::all_zero(page, 6, 16) {
        return false;
    }
    if rows < 4 {
        return true;
    }
    if !legal_window(l, page) {
        return false;
    }
    if rows < 5 {
        return true;
    }
    if !zeros::all_zero(page, 268, 512) {
        return false;
    }
    if rows < 6 {
        return true;
    }
    if !legal_entries(l, p, page) {
        return false;
    }
    if rows < 7 {
        return true;
    }
    zeros::all_zero(page, 2432, 4096)
}

// Whether a page keeps the rule of metadata page p: all seven rows.
pub fn legal_page(l: Label, p: u32, page: &[u8]) -> bool
    requires page_len { length page.now ≡ 4096 }
    requires p_bound { p < 2 ^ 16 }
    ensures { result ≡ page_test l p page.now }
{
    read_down(l, p, page, 7)
}
