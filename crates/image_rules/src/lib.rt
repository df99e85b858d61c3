// Number 5 of a reopening: the rule of each page, and the rules between pages.
#![tactic(auto)]

pub mod twice;

ghost use Rattle.std.specs.Prelude.{◌≡◌, true, false, not, ◌&&◌, ◌||◌, ◌+◌, ◌≤◌, ◌<◌, length, drop, eqb};
ghost use Rattle.layout.specs.Places.{Limits, meta_pages, ssd_length};
ghost use Rattle.layout.specs.PageRule.{in_range};
ghost use Rattle.layout.specs.Window.{slots_in};
ghost use Rattle.protocol.specs.Rows.{valid, writing};
ghost use Rattle.protocol.specs.Recovery.{metas_of, each_legal, stamp_in, stamps_differ, all_open_in, pages_test};

use layout::{Label, Window, places};
use stored::image;

// Whether every page keeps its own rule.
pub fn all_legal(ssd: &[u8], l: Label) -> bool
    requires ssd_len { length ssd.now ≡ ssd_length l }
    requires limits { Limits l }
    ensures { result ≡ each_legal l 0 (metas_of l ssd.now) }
{
    let m = places::meta_pages(l);
    for p in 0..m {
        if !page_rule::legal_page(l, p, image::meta_page(ssd, l, p)) {
            return false;
        }
    }
    true
}

// Whether a stamp is 0, or that of no page from k on.
fn stamp_alone(ssd: &[u8], l: Label, stamp: u32, k: u32) -> bool
    requires ssd_len { length ssd.now ≡ ssd_length l }
    requires limits { Limits l }
    requires k_bound { k ≤ meta_pages l }
    ensures { result ≡ (eqb stamp 0 || not (stamp_in stamp (drop k (metas_of l ssd.now)))) }
{
    if stamp == 0 {
        return true;
    }
    let m = places::meta_pages(l);
    for q in k..m {
        if stamp == image::stamp_at(ssd, l, q) {
            return false;
        }
    }
    true
}

// Whether stamps other than 0 differ between pages.
pub fn stamps_differ(ssd: &[u8], l: Label) -> bool
    requires ssd_len { length ssd.now ≡ ssd_length l }
    requires limits { Limits l }
    ensures { result ≡ stamps_differ (metas_of l ssd.now) }
{
    let m = places::meta_pages(l);
    for p in 0..m {
        let stamp = image::stamp_at(ssd, l, p);
        if !stamp_alone(ssd, l, stamp, p + 1) {
            return false;
        }
    }
    true
}

// Whether stored flags are valid and writing.
fn is_open(flags: u32) -> bool
    ensures { result ≡ (valid flags && writing flags) }
{
    (flags % 2 == 1) & (flags / 4 % 2 == 1)
}

// Whether each of the window's slots has a valid, writing entry.
pub fn all_open(ssd: &[u8], l: Label, w: Window) -> bool
    requires ssd_len { length ssd.now ≡ ssd_length l }
    requires w_value { in_range l (slots_in w) ≡ true }
    ensures { result ≡ all_open_in (metas_of l ssd.now) (slots_in w) }
{
    w.slots()
        .iter()
        .all(|s| is_open(image::entry_of(ssd, l, *s).flags))
}

// Whether every rule of every page and between pages is kept.
pub fn pages_ok(ssd: &[u8], l: Label) -> bool
    requires ssd_len { length ssd.now ≡ ssd_length l }
    requires limits { Limits l }
    ensures { result ≡ pages_test l (metas_of l ssd.now) }
{
    if !all_legal(ssd, l) {
        return false;
    }
    if !stamps_differ(ssd, l) {
        return false;
    }
    if !twice::none_twice(ssd, l) {
        return false;
    }
    let found = image::newest(ssd, l);
    all_open(ssd, l, image::pending(ssd, l, found.at))
}
