// What rust/bench measures, for Rust to call.
#![tactic(auto)]

ghost use Rattle.std.specs.Prelude.{◌≡◌, ◌≤◌, ◌%◌, length, take, replicate};
ghost use Rattle.pages.specs.Pages.{put_page, Holds};
ghost use Rattle.layout.specs.MetaPage.{encode_meta};

use layout::{Slot, WINDOW, Window};

// Stores a page of bytes.
#[unsafe(no_mangle)]
pub extern "C" fn bench_store(image: &mut [u8], index: usize, page: &[u8])
    requires holds { Holds image.old index }
    requires page_len { length page.now ≡ 4096 }
    ensures { image.new ≡ put_page image.old index page.now }
{
    pages::store(image, index, page);
}

// Encodes a metadata page whose window names one slot 63 times, and copies it out.
#[unsafe(no_mangle)]
pub extern "C" fn bench_encode(out: &mut [u8], stamp: u32, slot: u32, rows: &[u32])
    requires out_len { length out.old ≡ 4096 }
    requires rows_len_bound { length rows.now ≤ 480 }
    requires rows_len { length rows.now % 2 ≡ 0 }
    ensures { out.new ≡ encode_meta stamp (take 63 (replicate 63 (record { 0 = slot }))) rows.now }
{
    let w = Window {
        slots: [Slot(slot); WINDOW],
        count: 63,
    };
    out.copy_from_slice(&metadata::page::encode_meta(stamp, w, rows));
}
