// Text in bytes: fixed texts and decimal numbers, written over a part of a buffer, and numbers that are read.
#![tactic(auto)]

ghost use Rattle.std.specs.Prelude.{◌≡◌, [], ◌∷◌, ◌++◌, ◌+◌, ◌-◌, ◌^◌, ◌≤◌, ◌<◌, length};
ghost use borrow.Rule.Slice.PartMut.{put_mid};
ghost use Rattle.layout.specs.LabelPage.{decimal, number_from};
ghost use Rattle.text.specs.Numbers.{fitting, number_read};

// How many digits a number has.
fn decimal_len(n: u32) -> usize
    ensures { result ≡ length (decimal n) }
{
    let mut rest = n;
    let mut count: usize = 1;
    // Kept: how often it turns is what it counts.
    while 10 <= rest {
        rest /= 10;
        count += 1;
    }
    count
}

// Writes a number's digits over a part that is as long, the last digit first.
fn put_decimal(part: &mut [u8], n: u32)
    requires { length part.old ≡ length (decimal n) }
    ensures { part.new ≡ decimal n }
{
    let mut rest = n;
    for i in (0..part.len()).rev() {
        part[i] = b'0' + (rest % 10) as u8;
        rest /= 10;
    }
}

// Writes a text over the bytes from `at` on.
pub fn put_text(page: &mut [u8], at: usize, text: &[u8])
    requires { at + length text.now ≤ length page.old }
    ensures { page.new ≡ put_mid at (length text.now) page.old text.now }
{
    let end = at + text.len();
    page[at..end].copy_from_slice(text);
}

// Writes a number and the byte after it over the bytes from `at` on, and gives the offset after them.
pub fn put_number(page: &mut [u8], at: usize, n: u32, last: u8) -> usize
    requires { at + length (decimal n) < length page.old }
    ensures { (result ≡ at + (length (decimal n) + 1)) × (page.new ≡ put_mid at (length (decimal n) + 1) page.old (decimal n ++ (last ∷ []))) }
{
    let end = at + decimal_len(n);
    put_decimal(&mut page[at..end], n);
    page[end] = last;
    end + 1
}

// Up to `most` digits more after those of `first`, then byte 10: the number, where it fits in 32 bits, and the bytes after that.
pub fn read_digits(bytes: &[u8], first: u32, most: u32) -> Option<(u32, &[u8])>
    requires most_bound { most ≤ 9 }
    requires first_bound { first < 10 ^ (10 - most) }
    ensures { number_read result ≡ fitting (number_from most first bytes.now) }
{
    let mut n = u64::from(first);
    let mut left = most;
    for (i, b) in bytes.iter().enumerate() {
        match *b {
            b'\n' => return Some((u32::try_from(n).ok()?, &bytes[i + 1..])),
            b'0'..=b'9' if left > 0 => {
                n = 10 * n + u64::from(*b - b'0');
                left -= 1;
            }
            _ => return None,
        }
    }
    None
}
