// Lines of a key and a number, written over the bytes from an offset on; the offset after them comes back. What the listing and the
// load share.
#![tactic(auto)]

ghost use Rattle.std.specs.Prelude.{◌≡◌, ◌+◌, ◌≤◌, length, take};
ghost use Rattle.fields.specs.Written.{Written};
ghost use Rattle.fields.specs.Fields.{field, refusal_text};

// A text of at most a page: its bytes, zero past its length.
#[derive(Clone, Copy)]
pub struct Text {
    pub bytes: [u8; 4096],
    pub len: usize,
}

impl Text {
    // The bytes up to the text's length, at most all.
    pub fn text(&self) -> &[u8]
        ensures { result.now ≡ take self.now.len self.now.bytes }
    {
        let n = self.len.min(4096);
        &self.bytes[..n]
    }
}

// A key, a number and the byte after it.
pub fn put_field(page: &mut [u8], at: usize, key: &[u8], n: u32, last: u8) -> usize
    requires { at + length key.now + 11 ≤ length page.old }
    ensures { Written page.old page.new at result (length key.now + 11) (field key.now n last) }
{
    text::put_text(page, at, key);
    text::put_number(page, at + key.len(), n, last)
}

// A refusal's only line.
// Kept: a slice of 4,096 bytes: an array alone would ask more of callers.
pub fn put_refusal(page: &mut [u8], number: u32) -> usize
    requires { length page.old ≡ 4096 }
    ensures { Written page.old page.new 0 result 19 (refusal_text number) }
{
    put_field(page, 0, b"refused=", number, 10)
}
