// What the calls do to table, record and images, once they are judged: what stores says where. answers builds what they return.
#![tactic(auto)]

pub mod answers;

ghost use Rattle.std.specs.Prelude.{◌≡◌, true, ◌+◌, ◌-◌, ◌*◌, ◌%◌, ◌≤◌, ◌<◌, length, Some};
ghost use Rattle.pages.specs.Pages.{page_at, put_page};
ghost use Rattle.layout.specs.Places.{meta_pages, data_place, block_place, meta_of, hdd_length, ssd_length};
ghost use Rattle.layout.specs.MetaPage.{rows_on};
ghost use Rattle.protocol.specs.Metadata.{store_place, meta_bytes};
ghost use Rattle.layout.specs.PageRule.{listed};
ghost use Rattle.protocol.specs.Rows.{row_block, row_flags, set_flags, set_row, dirty, with_used, without_writing, without_dirty};
ghost use Rattle.layout.specs.Window.{window_most};
ghost use Rattle.layout.specs.Stamps.{largest_stamp};
ghost use Rattle.record.specs.Record.{label_in, window_in, callers_in, with_stamp, with_window, with_callers};
ghost use Rattle.record.specs.Window.{without, beside};
ghost use Rattle.record.specs.Rule.{record_test};
ghost use Rattle.protocol.specs.Perform.{joined, landed_flags};
ghost use Rattle.protocol.specs.declared.Answer.TheVariants.{Announced};
ghost use Rattle.protocol.specs.declared.Stored.TheVariants.{Ssd, Hdd};
ghost use Rattle.judging.specs.Fits.{FitsRecord};
ghost use Rattle.moves.specs.Moves.{rows_end};

use layout::{Block, Slot, places};
use metadata::page;
use protocol::{Answer, Outcome, Stored};
use record::{Record, state};

// Where the rows of a metadata page end that begin at `start`.
fn rows_end(len: usize, start: usize) -> usize
    requires { (start ≤ len) × (len ≤ 115200) × (start % 2 ≡ 0) × (len % 2 ≡ 0) }
    ensures { (result ≡ rows_end len start) × (start ≤ result) × (result ≤ len) × (result ≤ start + 480) × (result % 2 ≡ 0) }
{
    if len - start < 480 {
        return len;
    }
    start + 480
}

// Stores metadata page p: a stamp, the record's window and the rows of the page's slots.
pub fn store_meta(ssd: &mut [u8], table: &[u32], state: Record, stamp: u32, p: u32) -> Stored
    requires fits_record { FitsRecord (length ssd.old) (length table.now) state }
    requires p_bound { p < meta_pages (label_in state) }
    ensures { (result ≡ Ssd (store_place (label_in state) ssd.old p)) × (ssd.new ≡ put_page ssd.old (store_place (label_in state) ssd.old p) (meta_bytes (label_in state) stamp (window_in state) (rows_on p table.now))) }
{
    let l = state.label;
    let start = 480 * (p as usize);
    let end = rows_end(table.len(), start);
    let page = page::encode_meta(stamp, state::window_of(state), &table[start..end]);
    let place = places::meta_place(l, p);
    pages::store(ssd, place, &page);
    let number = place as u32;
    Stored::Ssd(number)
}

// Stores metadata page p with the newest stamp plus 1, and answers.
pub fn confirm(ssd: &mut [u8], table: &[u32], state: Record, p: u32, answer: Answer) -> Outcome
    requires fits_record { FitsRecord (length ssd.old) (length table.now) state }
    requires p_bound { p < meta_pages (label_in state) }
    requires newest_bound { state.newest < largest_stamp (label_in state) }
    ensures { (result ≡ record { answer = answer; state = with_stamp state (state.newest + 1); stored = Some (Ssd (store_place (label_in state) ssd.old p)) }) × (ssd.new ≡ put_page ssd.old (store_place (label_in state) ssd.old p) (meta_bytes (label_in state) (state.newest + 1) (window_in state) (rows_on p table.now))) }
{
    let stamp = state.newest + 1;
    let stored = store_meta(ssd, table, state, stamp, p);
    let next = state::with_stamp(state, stamp);
    answers::stored(answer, next, stored)
}

// Sets a row.
pub fn set_row(table: &mut [u32], s: Slot, b: Block, flags: u32)
    requires { 2 * s.0 + 1 < length table.old }
    ensures { table.new ≡ set_row table.old s b flags }
{
    let k = 2 * (s.0 as usize);
    table[k] = b.0;
    table[k + 1] = flags;
}

// Opens a slot for a block and a caller: its row, the window, and then the metadata page. It is announced.
pub fn open_slot(
    ssd: &mut [u8],
    table: &mut [u32],
    state: Record,
    s: Slot,
    b: Block,
    caller: u32,
    flags: u32,
    hand: Slot,
) -> Outcome
    requires fits_record { FitsRecord (length ssd.old) (length table.old) state }
    requires state_value { record_test state ≡ true }
    requires count_lt_window_most { state.count < window_most }
    requires newest_bound { state.newest < largest_stamp (label_in state) }
    requires s_lt_slots { s.0 < state.label.slots }
    ensures { (result ≡ record { answer = Announced s; state = with_stamp (joined s caller hand state) (state.newest + 1); stored = Some (Ssd (store_place (label_in state) ssd.old (meta_of s))) }) × (table.new ≡ set_row table.old s b flags) × (ssd.new ≡ put_page ssd.old (store_place (label_in state) ssd.old (meta_of s)) (meta_bytes (label_in state) (state.newest + 1) (window_in (joined s caller hand state)) (rows_on (meta_of s) (set_row table.old s b flags)))) }
{
    set_row(table, s, b, flags);
    let next = state::joined(state, s, caller, hand);
    confirm(ssd, table, next, places::meta_of(s), Answer::Announced(s))
}

// Flags without writing.
fn without_writing(flags: u32) -> u32
    ensures { (result ≡ without_writing flags) × (result ≤ flags) }
{
    if flags / 4 % 2 == 1 {
        return flags - 4;
    }
    flags
}

// Flags with used.
fn with_used(flags: u32) -> u32
    requires { flags < 16 }
    ensures { result ≡ with_used flags }
{
    if flags / 8 % 2 == 1 {
        return flags;
    }
    flags + 8
}

// Flags after a landing: not writing, and used if a write landed.
fn landed_flags(write: bool, flags: u32) -> u32
    requires { flags < 16 }
    ensures { result ≡ landed_flags write flags }
{
    let closed = without_writing(flags);
    if write {
        return with_used(closed);
    }
    closed
}

// The row of a slot in which a page landed, by a write or by a fetch.
pub fn land_row(table: &mut [u32], s: Slot, write: bool)
    requires s_in_bounds { 2 * s.0 + 1 < length table.old }
    requires s_bound { row_flags table.old s < 16 }
    ensures { table.new ≡ set_flags table.old s (landed_flags write (row_flags table.old s)) }
{
    let k = 2 * (s.0 as usize) + 1;
    let flags = table[k];
    table[k] = landed_flags(write, flags);
}

// Closes an open slot in which a page landed: its row, and it leaves the window.
pub fn close_slot(table: &mut [u32], state: Record, s: Slot, write: bool) -> Record
    requires state_value { record_test state ≡ true }
    requires state_value_2 { listed s (window_in state) ≡ true }
    requires s_in_bounds { 2 * s.0 + 1 < length table.old }
    requires s_bound { row_flags table.old s < 16 }
    ensures { (result ≡ with_callers (with_window state true (without s (window_in state))) (beside s (window_in state) (callers_in state))) × (table.new ≡ set_flags table.old s (landed_flags write (row_flags table.old s))) }
{
    land_row(table, s, write);
    state::left(state, s)
}

// Stores a slot's page.
pub fn store_page(ssd: &mut [u8], state: Record, s: Slot, page: &[u8]) -> Stored
    requires ssd_len { length ssd.old ≡ ssd_length (label_in state) }
    requires page_len { length page.now ≡ 4096 }
    requires slots_bound { state.label.slots ≤ 57600 }
    requires s_lt_slots { s.0 < state.label.slots }
    ensures { (result ≡ Ssd (data_place (label_in state) s)) × (ssd.new ≡ put_page ssd.old (data_place (label_in state) s) page.now) }
{
    let l = state.label;
    let place = places::data_place(l, s);
    pages::store(ssd, place, page);
    let number = place as u32;
    Stored::Ssd(number)
}

// Copies a block's page into a slot.
pub fn copy_in(ssd: &mut [u8], hdd: &[u8], state: Record, s: Slot, b: Block) -> Stored
    requires ssd_len { length ssd.old ≡ ssd_length (label_in state) }
    requires hdd_len { length hdd.now ≡ hdd_length (label_in state) }
    requires slots_bound { state.label.slots ≤ 57600 }
    requires s_lt_slots { s.0 < state.label.slots }
    requires b_lt_blocks { b.0 < state.label.blocks }
    ensures { (result ≡ Ssd (data_place (label_in state) s)) × (ssd.new ≡ put_page ssd.old (data_place (label_in state) s) (page_at hdd.now (block_place (label_in state) b))) }
{
    let l = state.label;
    let place = places::data_place(l, s);
    pages::copy_page(ssd, place, hdd, places::block_place(l, b));
    let number = place as u32;
    Stored::Ssd(number)
}

// Copies a dirty slot's page to its block, and marks the slot clean.
pub fn copy_out(ssd: &[u8], hdd: &mut [u8], table: &mut [u32], state: Record, s: Slot) -> Stored
    requires fits_record { FitsRecord (length ssd.now) (length table.old) state }
    requires hdd_len { length hdd.old ≡ hdd_length (label_in state) }
    requires blocks_bound { state.label.blocks ≤ 16777216 }
    requires s_lt_slots { s.0 < state.label.slots }
    requires s_bound { (row_block table.old s).0 < state.label.blocks }
    requires s_value { dirty (row_flags table.old s) ≡ true }
    ensures { (result ≡ Hdd (block_place (label_in state) (row_block table.old s))) × (hdd.new ≡ put_page hdd.old (block_place (label_in state) (row_block table.old s)) (page_at ssd.now (data_place (label_in state) s))) × (table.new ≡ set_flags table.old s (without_dirty (row_flags table.old s))) }
{
    let l = state.label;
    let k = 2 * (s.0 as usize);
    let block = table[k];
    let flags = table[k + 1];
    let place = places::block_place(l, Block(block));
    pages::copy_page(hdd, place, ssd, places::data_place(l, s));
    table[k + 1] = flags - 2;
    let number = place as u32;
    Stored::Hdd(number)
}

// Sets a slot's used flag.
pub fn use_slot(table: &mut [u32], s: Slot)
    requires s_in_bounds { 2 * s.0 + 1 < length table.old }
    requires s_bound { row_flags table.old s < 16 }
    ensures { table.new ≡ set_flags table.old s (with_used (row_flags table.old s)) }
{
    let k = 2 * (s.0 as usize) + 1;
    let flags = table[k];
    table[k] = with_used(flags);
}
