// What an SSD image holds: its label, its metadata pages, their entries, and the newest window.
ghost use Rattle.std.specs.Prelude.{◌≡◌, true, [], ◌+◌, ◌≤◌, ◌<◌, length, get_or};
ghost use Rattle.std.specs.Option.{ForSome};
ghost use Rattle.pages.specs.Parts.{part, page_part};
ghost use Rattle.layout.specs.Places.{Limits, meta_pages, meta_place, ssd_length};
ghost use Rattle.layout.specs.MetaPage.{stamp_of, count_of, window_of};
ghost use Rattle.protocol.specs.Recovery.{metas_of, spent_stamp, entry_in, each_legal};
ghost use Rattle.stored.specs.Stored.{label_if, newest_at, newer_at, numbered_of};
ghost use Rattle.layout.specs.Window.{window_most, window_from};

use crate::Newest;
use layout::{Entry, Label, Slot, WINDOW, Window, places};
use metadata::page;
use record::window;

// The label of an SSD image, if its first page is one.
pub fn label_of(ssd: &[u8]) -> Option<Label>
    ensures { result ≡ label_if ssd.now }
{
    if ssd.len() < 4096 {
        return None;
    }
    label_page::decode_label(pages::page_at(ssd, 0))
}

// Metadata page p of an SSD image: the image's own bytes.
pub fn meta_page(ssd: &[u8], l: Label, p: u32) -> &[u8]
    requires ssd_len { length ssd.now ≡ ssd_length l }
    requires p_bound { p < meta_pages l }
    ensures { part result ≡ page_part (part ssd.entry) (meta_place l p) }
{
    pages::page_at(ssd, places::meta_place(l, p))
}

// The stored entry of a slot.
pub fn entry_of(ssd: &[u8], l: Label, s: Slot) -> Entry
    requires ssd_len { length ssd.now ≡ ssd_length l }
    requires s_lt_slots { s.0 < l.slots }
    ensures { result ≡ entry_in (metas_of l ssd.now) s }
{
    page::entry_at(meta_page(ssd, l, places::meta_of(s)), s.0 % 240)
}

// The stamp of metadata page p.
pub fn stamp_at(ssd: &[u8], l: Label, p: u32) -> u32
    requires ssd_len { length ssd.now ≡ ssd_length l }
    requires p_bound { p < meta_pages l }
    ensures { result ≡ stamp_of (get_or (metas_of l ssd.now) p []) }
{
    page::stamp_of(meta_page(ssd, l, p))
}

// The newer of what was found before and page p, with this stamp.
fn newer(n: Newest, stamp: u32, p: u32) -> Newest
    ensures { result ≡ newer_at n stamp p }
{
    if n.stamp < stamp {
        Newest { stamp, at: Some(p) }
    } else {
        n
    }
}

// The first page with the largest stamp; none where every stamp is 0.
pub fn newest(ssd: &[u8], l: Label) -> Newest
    requires ssd_len { length ssd.now ≡ ssd_length l }
    requires limits { Limits l }
    ensures { result ≡ numbered_of (metas_of l ssd.now) }
{
    let m = places::meta_pages(l);
    let mut n = Newest { stamp: 0, at: None };
    for p in 0..m {
        n = newer(n, stamp_at(ssd, l, p), p);
    }
    n
}

// The largest stamp that a store has spent.
pub fn spent_stamp(ssd: &[u8], l: Label) -> u32
    requires ssd_len { length ssd.now ≡ ssd_length l }
    requires limits { Limits l }
    ensures { result ≡ spent_stamp l ssd.now }
{
    let found = newest(ssd, l);
    found.stamp
}

// The window of a page.
fn window_of(page: &[u8]) -> Window
    requires page_len { length page.now ≡ 4096 }
    requires page_bound { count_of page.now ≤ window_most }
    ensures { result ≡ window_from (window_of page.now) }
{
    let count = page::count_of(page);
    let mut slots = [Slot(0); WINDOW];
    for k in 0..count {
        slots[k as usize] = page::slot_at(page, k);
    }
    Window { slots, count }
}

// The window of the newest page, as `newest` found it.
pub fn pending(ssd: &[u8], l: Label, at: Option<u32>) -> Window
    requires ssd_len { length ssd.now ≡ ssd_length l }
    requires ssd_value { each_legal l 0 (metas_of l ssd.now) ≡ true }
    requires at_bound { ForSome at (λ p. p < meta_pages l) }
    ensures { result ≡ window_from (newest_at (metas_of l ssd.now) at).window }
{
    match at {
        Some(p) => window_of(meta_page(ssd, l, p)),
        None => window::empty(),
    }
}
