// The metadata page, written and read. "Each entry is read from its own 8 bytes of the page."
ghost use Rattle.std.specs.Prelude.{◌≡◌, [], ◌+◌, ◌*◌, ◌%◌, ◌≤◌, ◌<◌, length, take, drop};
ghost use borrow.Rule.Slice.PartMut.{put_mid};
ghost use Rattle.pages.specs.Pages.{padded};
ghost use Rattle.pages.specs.Words.{le_bytes, le_number};
ghost use Rattle.layout.specs.Window.{window_most, slots_in};
ghost use Rattle.layout.specs.MetaPage.{slots_bytes, entry_bytes, rows_bytes, encode_meta, stamp_of, count_of, slot_at, decode_entry, entry_at};

use layout::{Block, Entry, Slot, Window};

// Writes a 32-bit number over the four bytes from `at` on.
fn put_word(bytes: &mut [u8], at: usize, x: u32)
    requires { at + 4 ≤ length bytes.old }
    ensures { bytes.new ≡ put_mid at 4 bytes.old (le_bytes 4 x) }
{
    pages::write_word(&mut bytes[at..at + 4], x);
}

// Writes the slot numbers of a window, from byte 16 on.
fn write_window(page: &mut [u8; 4096], slots: &[Slot])
    requires slots_len { length slots.now ≤ window_most }
    ensures { page.new ≡ put_mid 16 (4 * length slots.now) page.old (slots_bytes slots.now) }
{
    for (i, s) in slots.iter().enumerate() {
        put_word(page, 16 + 4 * i, s.0);
    }
}

// Writes an entry over its own 8 bytes. The used flag is left out.
pub fn write_entry(part: &mut [u8], block: u32, flags: u32)
    requires { length part.old ≡ 8 }
    ensures { part.new ≡ entry_bytes block flags }
{
    put_word(part, 0, block);
    put_word(part, 4, flags % 8);
}

// Writes the entries of table rows, from byte 512 on.
fn write_rows(page: &mut [u8; 4096], rows: &[u32])
    requires rows_len_bound { length rows.now ≤ 480 }
    requires rows_len { length rows.now % 2 ≡ 0 }
    ensures { page.new ≡ put_mid 512 (4 * length rows.now) page.old (rows_bytes rows.now) }
{
    for i in 0..rows.len() / 2 {
        let at = 512 + 8 * i;
        write_entry(&mut page[at..at + 8], rows[2 * i], rows[2 * i + 1]);
    }
}

// Writes a metadata page over a page of zeros.
fn fill_meta(page: &mut [u8; 4096], stamp: u32, w: Window, rows: &[u32])
    requires page_value { page.old ≡ padded 4096 [] }
    requires count_le_window_most { w.count ≤ window_most }
    requires rows_len_bound { length rows.now ≤ 480 }
    requires rows_len { length rows.now % 2 ≡ 0 }
    ensures { page.new ≡ encode_meta stamp (slots_in w) rows.now }
{
    put_word(page, 0, stamp);
    put_word(page, 4, w.count);
    write_window(page, w.slots());
    write_rows(page, rows);
}

// The metadata page of a stamp, a window and the table rows of the page's slots.
pub fn encode_meta(stamp: u32, w: Window, rows: &[u32]) -> [u8; 4096]
    requires count_le_window_most { w.count ≤ window_most }
    requires rows_len_bound { length rows.now ≤ 480 }
    requires rows_len { length rows.now % 2 ≡ 0 }
    ensures { result ≡ encode_meta stamp (slots_in w) rows.now }
{
    let mut page = [0u8; 4096];
    fill_meta(&mut page, stamp, w, rows);
    page
}

// The 32-bit number in the four bytes from `at` on.
fn word_at(bytes: &[u8], at: usize) -> u32
    requires { at + 4 ≤ length bytes.now }
    ensures { result ≡ le_number (take 4 (drop at bytes.now)) }
{
    pages::read_word(&bytes[at..at + 4])
}

// The page's stamp: bytes 0..3.
pub fn stamp_of(page: &[u8]) -> u32
    requires { length page.now ≡ 4096 }
    ensures { result ≡ stamp_of page.now }
{
    word_at(page, 0)
}

// The length of the page's window: bytes 4..5.
pub fn count_of(page: &[u8]) -> u32
    requires { length page.now ≡ 4096 }
    ensures { result ≡ count_of page.now }
{
    u32::from(u16::from_le_bytes([page[4], page[5]]))
}

// Place k of the page's window.
pub fn slot_at(page: &[u8], k: u32) -> Slot
    requires page_len { length page.now ≡ 4096 }
    requires k_lt_window_most { k < window_most }
    ensures { result ≡ slot_at page.now k }
{
    Slot(word_at(page, 16 + 4 * (k as usize)))
}

// An entry, from its own 8 bytes.
pub fn read_entry(part: &[u8]) -> Entry
    requires { length part.now ≡ 8 }
    ensures { result ≡ decode_entry part.now }
{
    Entry {
        block: Block(word_at(part, 0)),
        flags: u32::from(part[4]),
    }
}

// Entry i of a page.
pub fn entry_at(page: &[u8], i: u32) -> Entry
    requires page_len { length page.now ≡ 4096 }
    requires i_bound { i < 240 }
    ensures { result ≡ entry_at page.now i }
{
    let at = 512 + 8 * (i as usize);
    read_entry(&page[at..at + 8])
}
