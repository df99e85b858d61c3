// The listing of an image: judged as a reopening judges it, without HDD and table; then written.
ghost use Rattle.std.specs.Prelude.{◌≡◌, true, ◌+◌, ◌*◌, ◌≤◌, ◌<◌, length};
ghost use Rattle.layout.specs.Places.{Limits, ssd_length};
ghost use Rattle.protocol.specs.Recovery.{metas_of, newest_of, pages_test};
ghost use Rattle.fields.specs.Written.{Written, text_of};
ghost use Rattle.list_image.specs.Listing.{lines_of, image_text, listing_of};

use crate::lines;
use fields::Text;
use layout::{Label, Slot, places};
use stored::image;

// A line for each valid entry.
fn put_lines(page: &mut [u8], at: usize, ssd: &[u8], l: Label, pending: &[Slot]) -> usize
    requires slots_in_bounds { at + 63 * l.slots ≤ length page.old }
    requires ssd_len { length ssd.now ≡ ssd_length l }
    ensures { Written page.old page.new at result (63 * l.slots) (lines_of pending.now (metas_of l ssd.now) l.slots) }
{
    let slots = l.slots;
    let mut end = at;
    for s in 0..slots {
        let entry = image::entry_of(ssd, l, Slot(s));
        end = lines::put_line(page, end, Slot(s), entry, pending);
    }
    end
}

// The text of an image that keeps every rule.
fn put_image(page: &mut [u8; 4096], ssd: &[u8], l: Label) -> usize
    requires ssd_len { (length ssd.now ≡ ssd_length l) × (length ssd.now ≤ 65536) }
    requires limits { Limits l }
    requires ssd_value { pages_test l (metas_of l ssd.now) ≡ true }
    ensures { Written page.old page.new 0 result 4096 (image_text l (metas_of l ssd.now) (newest_of (metas_of l ssd.now))) }
{
    let found = image::newest(ssd, l);
    let pending = image::pending(ssd, l, found.at);
    let at = list_text::put_head(page, l, found.stamp, pending.count);
    put_lines(page, at, ssd, l, pending.slots())
}

// The listing of an image, or its refusal: 2, then 4, then 5.
fn put_listing(page: &mut [u8; 4096], ssd: &[u8]) -> usize
    ensures { Written page.old page.new 0 result 4096 (listing_of ssd.now) }
{
    let Some(l) = image::label_of(ssd) else {
        return fields::put_refusal(page, 2);
    };
    if ssd.len() != places::ssd_length(l) {
        return fields::put_refusal(page, 4);
    }
    if 65536 < ssd.len() {
        return fields::put_refusal(page, 4);
    }
    if !image_rules::pages_ok(ssd, l) {
        return fields::put_refusal(page, 5);
    }
    put_image(page, ssd, l)
}

// The text of an SSD image of any length.
pub fn list(ssd: &[u8]) -> Text
    ensures { result ≡ text_of (listing_of ssd.now) }
{
    let mut bytes = [0u8; 4096];
    let len = put_listing(&mut bytes, ssd);
    Text { bytes, len }
}
