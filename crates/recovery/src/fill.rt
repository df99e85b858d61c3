// The table and the record, from pages that keep every rule.
ghost use Rattle.std.specs.Prelude.{◌≡◌, true, ◌+◌, ◌*◌, ◌≤◌, ◌<◌, length};
ghost use Rattle.layout.specs.Places.{Limits, ssd_length, table_length};
ghost use Rattle.layout.specs.MetaPage.{rows_from};
ghost use Rattle.layout.specs.PageRule.{in_range};
ghost use Rattle.layout.specs.Window.{slots_in};
ghost use Rattle.protocol.specs.Recovery.{metas_of, spent_stamp, entry_in, pages_test, recover};
ghost use Rattle.recovery.specs.Fill.{kept_entry, freed};

use layout::{Block, Entry, Label, Slot, Window};
use record::{Record, state};
use steps::step;
use stored::image;

// An entry as it is kept: without the writing flag.
fn kept(entry: Entry) -> Entry
    ensures { result ≡ kept_entry entry }
{
    if entry.flags % 2 == 1 {
        Entry {
            block: entry.block,
            flags: entry.flags % 4,
        }
    } else {
        Entry {
            block: Block(0),
            flags: 0,
        }
    }
}

// Fills the table with every stored entry, as if none were dropped.
fn fill(ssd: &[u8], table: &mut [u32], l: Label)
    requires ssd_len { length ssd.now ≡ ssd_length l }
    requires table_len { length table.old ≡ table_length l }
    ensures { table.new ≡ rows_from l.slots (λ s. kept_entry (entry_in (metas_of l ssd.now) (record { 0 = s }))) }
{
    let slots = l.slots;
    for s in 0..slots {
        let entry = kept(image::entry_of(ssd, l, Slot(s)));
        let k = 2 * (s as usize);
        table[k] = entry.block.0;
        table[k + 1] = entry.flags;
    }
}

// Zeroes the rows of the window's slots.
fn free_rows(table: &mut [u32], l: Label, w: Window)
    requires table_len { length table.old ≡ table_length l }
    requires w_value { in_range l (slots_in w) ≡ true }
    ensures { table.new ≡ freed (slots_in w) table.old }
{
    let slots = w.slots();
    for s in slots {
        let k = 2 * (s.0 as usize);
        table[k] = 0;
        table[k + 1] = 0;
    }
}

// Table and record of a reopened box.
pub fn recover(ssd: &[u8], table: &mut [u32], l: Label) -> Record
    requires ssd_len { length ssd.now ≡ ssd_length l }
    requires table_len { length table.old ≡ table_length l }
    requires limits { Limits l }
    requires ssd_value { pages_test l (metas_of l ssd.now) ≡ true }
    ensures { record { table = table.exit.now; state = result } ≡ recover l (metas_of l ssd.now) (spent_stamp l ssd.now) }
{
    fill(ssd, table, l);
    let found = image::newest(ssd, l);
    let pending = image::pending(ssd, l, found.at);
    free_rows(table, l, pending);
    let spent = image::spent_stamp(ssd, l);
    state::fresh(l, spent, step::phase_of(pending.count), pending)
}
