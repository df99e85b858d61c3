// The label page, written and read.
#![tactic(auto)]

ghost use Rattle.std.specs.Prelude.{◌≡◌, true, ◌&&◌, [], length};
ghost use Rattle.pages.specs.Pages.{padded};
ghost use Rattle.layout.specs.Places.{label_of, within_limits};
ghost use Rattle.layout.specs.LabelPage.{encode_label, decode_label, number, all_zero, legal_if};
ghost use Rattle.text.specs.Numbers.{number_read};

use layout::{Label, places, zeros};

// Writes a label over a zero page.
fn fill_label(page: &mut [u8; 4096], l: Label)
    requires page_value { page.old ≡ padded 4096 [] }
    requires l_value { within_limits l ≡ true }
    ensures { page.new ≡ encode_label l }
{
    text::put_text(page, 0, b"cache=lufuw\nlayout=1\nslots=");
    let end = text::put_number(page, 27, l.slots, 10);
    text::put_text(page, end, b"blocks=");
    text::put_number(page, end + 7, l.blocks, 10);
}

// The page of a label.
pub fn encode_label(l: Label) -> [u8; 4096]
    requires { within_limits l ≡ true }
    ensures { result ≡ encode_label l }
{
    let mut page = [0u8; 4096];
    fill_label(&mut page, l);
    page
}

// Reads a number of up to 8 digits, without leading zeros, and byte 10: the number, and the bytes after that.
fn read_number(bytes: &[u8]) -> Option<(u32, &[u8])>
    ensures { number_read result ≡ number bytes.now }
{
    let (first, rest) = bytes.split_first()?;
    match *first {
        b'1'..=b'9' => text::read_digits(rest, u32::from(*first - b'0'), 7),
        _ => None,
    }
}

// The label of two numbers and the bytes after their lines.
fn legal(slots: u32, blocks: u32, bytes: &[u8]) -> Option<Label>
    ensures { result ≡ legal_if (within_limits (label_of slots blocks) && all_zero bytes.now) (label_of slots blocks) }
{
    let l = places::label(slots, blocks);
    (places::within_limits(l) && zeros::all_zero(bytes, 0, bytes.len())).then_some(l)
}

// The label that a page is, if it is one.
pub fn decode_label(page: &[u8]) -> Option<Label>
    ensures { result ≡ decode_label page.now }
{
    let bytes = page.strip_prefix(b"cache=lufuw\nlayout=1\nslots=")?;
    let (slots, bytes) = read_number(bytes)?;
    let bytes = bytes.strip_prefix(b"blocks=")?;
    let (blocks, bytes) = read_number(bytes)?;
    legal(slots, blocks, bytes)
}
