// The label, its limits, and where each page lies.
ghost use Rattle.std.specs.Prelude.{◌≡◌};
ghost use Rattle.layout.specs.Places.{label_of, within_limits, meta_pages, meta_span, format_steps, ssd_length, hdd_length, table_length, meta_place, data_place, block_place, meta_of};

use crate::{Block, Label, Slot};

// The label of a box: the one place where a label is built.
pub fn label(slots: u32, blocks: u32) -> Label
    ensures { result ≡ label_of slots blocks }
{
    Label { slots, blocks }
}

// Whether a label is within the limits.
pub fn within_limits(l: Label) -> bool
    ensures { result ≡ within_limits l }
{
    1 <= l.slots && l.slots <= 57600 && 1 <= l.blocks && l.blocks <= 16777216
}

// The number of metadata pages, M.
pub fn meta_pages(l: Label) -> u32
    ensures { result ≡ meta_pages l }
{
    ((l.slots as u64 + 239) / 240) as u32
}

// How many pages of the SSD image hold metadata.
pub fn meta_span(l: Label) -> u32
    ensures { result ≡ meta_span l }
{
    meta_pages(l)
}

// The number of a format's steps.
pub fn format_steps(l: Label) -> u32
    ensures { result ≡ format_steps l }
{
    meta_span(l) + 2
}

// The SSD image's length in bytes.
pub fn ssd_length(l: Label) -> usize
    ensures { result ≡ ssd_length l }
{
    4096 * (1 + meta_span(l) as usize + l.slots as usize)
}

// The HDD image's length in bytes.
pub fn hdd_length(l: Label) -> usize
    ensures { result ≡ hdd_length l }
{
    4096 * l.blocks as usize
}

// The table's length in words.
pub fn table_length(l: Label) -> usize
    ensures { result ≡ table_length l }
{
    2 * l.slots as usize
}

// The page of the SSD image that is metadata page p.
pub fn meta_place(l: Label, p: u32) -> usize
    ensures { result ≡ meta_place l p }
{
    1 + p as usize
}

// The page of the SSD image that is a slot's data page.
pub fn data_place(l: Label, s: Slot) -> usize
    ensures { result ≡ data_place l s }
{
    1 + meta_span(l) as usize + s.0 as usize
}

// The page of the HDD image that is a block.
pub fn block_place(l: Label, b: Block) -> usize
    ensures { result ≡ block_place l b }
{
    b.0 as usize
}

// The metadata page that holds a slot's entry.
pub fn meta_of(s: Slot) -> u32
    ensures { result ≡ meta_of s }
{
    s.0 / 240
}
