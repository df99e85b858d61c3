// "No block is in two entries", in linear time: passes over ranges of 524,288 blocks, with a bit for each of them.
ghost use Rattle.std.specs.Prelude.{◌≡◌, Bool, true, false, List, ℕ, ◌+◌, ◌*◌, ◌%◌, ◌≤◌, ◌<◌, length, replicate};
ghost use Rattle.layout.specs.Places.{Limits, ssd_length};
ghost use Rattle.protocol.specs.Recovery.{metas_of, each_legal, none_twice, stored_rows};
ghost use Rattle.image_rules.specs.Twice.{bit_of, marked, Visit, visited, page_end, all_fresh};

use layout::{Label, places};
use metadata::page;
use stored::image;

// Whether bit b is set.
fn is_marked(map: &[u32], b: u32) -> bool
    requires { (length map.now ≡ 16384) × (b < 524288) }
    ensures { result ≡ bit_of map.now b }
{
    let w = (b / 32) as usize;
    let k = b % 32;
    (map[w] >> k) % 2 == 1
}

// Sets bit b.
fn mark(map: &mut [u32], b: u32)
    requires { (length map.old ≡ 16384) × (b < 524288) }
    ensures { map.new ≡ marked map.old b }
{
    let w = (b / 32) as usize;
    let k = b % 32;
    map[w] = map[w] | (1u32 << k);
}

// Whether a row's block is new, or no valid row's, or outside the range that begins at `start`; it is marked. Most blocks are
// outside, and one comparison tells it, since ranges begin at multiples of their length.
fn visit(map: &mut [u32], start: u32, block: u32, flags: u32) -> bool
    requires { (length map.old ≡ 16384) × (start % 524288 ≡ 0) }
    ensures { record { fresh = result; map = map.new } ≡ visited start map.old block flags }
{
    if block / 524288 != start / 524288 {
        return true;
    }
    if flags % 2 != 1 {
        return true;
    }
    let b = block - start;
    if is_marked(map, b) {
        return false;
    }
    mark(map, b);
    true
}

// The slot after the last one of the page that begins with slot s.
fn page_end(s: u32, slots: u32) -> u32
    requires s_lt_slots { s < slots }
    requires slots_bound { slots ≤ 57600 }
    ensures { result ≡ page_end s slots }
{
    if slots - s < 240 { slots } else { s + 240 }
}

// Whether all stored entries are new to the map: page by page.
fn pass(map: &mut [u32], ssd: &[u8], l: Label, start: u32) -> bool
    requires map_len { (length map.old ≡ 16384) × (start % 524288 ≡ 0) }
    requires ssd_len { length ssd.now ≡ ssd_length l }
    requires limits { Limits l }
    ensures { result ≡ all_fresh start map.old (stored_rows l (metas_of l ssd.now)) }
{
    let m = places::meta_pages(l);
    for p in 0..m {
        let page = image::meta_page(ssd, l, p);
        let first = 240 * p;
        let end = page_end(first, l.slots);
        for s in first..end {
            let entry = page::entry_at(page, s - first);
            let block = entry.block;
            if !visit(map, start, block.0, entry.flags) {
                return false;
            }
        }
    }
    true
}

// Whether no block of the range that begins at `start` is in two entries.
fn range_once(ssd: &[u8], l: Label, start: u32) -> bool
    requires ssd_len { length ssd.now ≡ ssd_length l }
    requires limits { Limits l }
    requires start_value { start % 524288 ≡ 0 }
    ensures { result ≡ all_fresh start (replicate 16384 0) (stored_rows l (metas_of l ssd.now)) }
{
    let mut map = [0u32; 16384];
    pass(&mut map, ssd, l, start)
}

// Whether no block is in two entries.
pub fn none_twice(ssd: &[u8], l: Label) -> bool
    requires ssd_len { length ssd.now ≡ ssd_length l }
    requires limits { Limits l }
    requires ssd_value { each_legal l 0 (metas_of l ssd.now) ≡ true }
    ensures { result ≡ none_twice (stored_rows l (metas_of l ssd.now)) }
{
    let ranges = l.blocks.div_ceil(524288);
    for k in 0..ranges {
        if !range_once(ssd, l, 524288 * k) {
            return false;
        }
    }
    true
}
