// The lines of a listing as text, each written over the bytes from an offset on; the offset after them comes back.
#![tactic(auto)]

ghost use Rattle.std.specs.Prelude.{◌+◌, ◌≤◌, ◌≡◌, length};
ghost use Rattle.fields.specs.Written.{Written};
ghost use Rattle.list_text.specs.ListText.{fate_text, head_text, entry_text};

use layout::{Entry, Label, Slot};

// What becomes of an entry: true where it is dropped.
fn put_fate(page: &mut [u8], at: usize, fate: bool) -> usize
    requires { at + 13 ≤ length page.old }
    ensures { Written page.old page.new at result 13 (fate_text fate) }
{
    if fate {
        text::put_text(page, at, b"fate=dropped\n");
        at + 13
    } else {
        text::put_text(page, at, b"fate=kept\n");
        at + 10
    }
}

// A valid entry's line.
pub fn put_entry(page: &mut [u8], at: usize, s: Slot, entry: Entry, fate: bool) -> usize
    requires { at + 63 ≤ length page.old }
    ensures { Written page.old page.new at result 63 (entry_text s entry fate) }
{
    let b = fields::put_field(page, at, b"slot=", s.0, 32);
    let f = fields::put_field(page, b, b"block=", entry.block.0, 32);
    let end = fields::put_field(page, f, b"flags=", entry.flags, 32);
    put_fate(page, end, fate)
}

// The lines before the entries'.
// Kept: a slice of 4,096 bytes: an array alone would ask more of callers.
pub fn put_head(page: &mut [u8], l: Label, stamp: u32, count: u32) -> usize
    requires { length page.old ≡ 4096 }
    ensures { Written page.old page.new 0 result 78 (head_text l stamp count) }
{
    text::put_text(page, 0, b"layout=1\n");
    let b = fields::put_field(page, 9, b"slots=", l.slots, 10);
    let n = fields::put_field(page, b, b"blocks=", l.blocks, 10);
    let o = fields::put_field(page, n, b"newest=", stamp, 10);
    fields::put_field(page, o, b"open=", count, 10)
}
