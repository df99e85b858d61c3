// An image as pages of 4,096 bytes, and little-endian words.
//
// store, copy_page and clear_page are the only functions of the product that write the bytes of an image.
#![tactic(auto)]

ghost use Rattle.std.specs.Prelude.{◌≡◌, ℕ, ◌+◌, ◌*◌, ◌≤◌, ◌<◌, length};
ghost use Rattle.pages.specs.Pages.{page_at, put_page, Holds, Cleared};
ghost use Rattle.pages.specs.Parts.{part, page_part};
ghost use Rattle.pages.specs.Words.{le_bytes, le_number};

// Copies `from` over `to`, which is as long.
// Kept: by place. The library's `copy_from_slice` becomes a call of memmove, a name that the archives for C do not need otherwise.
pub fn copy<T: Copy>(to: &mut [T], from: &[T])
    requires { length to.old ≡ length from.now }
    ensures { to.new ≡ from.now }
{
    for i in 0..from.len() {
        to[i] = from[i];
    }
}

// Page `index` of an image: the image's own bytes, as a part of it.
pub fn page_at(image: &[u8], index: usize) -> &[u8]
    requires { Holds image.now index }
    ensures { part result ≡ page_part (part image.entry) index }
{
    let at = index * 4096;
    let end = at + 4096;
    &image[at..end]
}

// Stores a page of bytes.
pub fn store(image: &mut [u8], index: usize, page: &[u8])
    requires holds { Holds image.old index }
    requires page_len { length page.now ≡ 4096 }
    ensures { image.new ≡ put_page image.old index page.now }
{
    let at = index * 4096;
    let end = at + 4096;
    copy(&mut image[at..end], page);
}

// Copies a page of one image into another.
pub fn copy_page(to: &mut [u8], to_index: usize, from: &[u8], from_index: usize)
    requires holds { Holds to.old to_index }
    requires holds_2 { Holds from.now from_index }
    ensures { to.new ≡ put_page to.old to_index (page_at from.now from_index) }
{
    let at = from_index * 4096;
    let end = at + 4096;
    store(to, to_index, &from[at..end]);
}

// Stores a zero page: the page value is built, and stored.
pub fn clear_page(image: &mut [u8], index: usize)
    requires { Holds image.old index }
    ensures { Cleared image.old image.new index }
{
    let page = [0u8; 4096];
    store(image, index, &page);
}

// The 32-bit number in four bytes.
pub fn read_word(part: &[u8]) -> u32
    requires { length part.now ≡ 4 }
    ensures { result ≡ le_number part.now }
{
    u32::from_le_bytes([part[0], part[1], part[2], part[3]])
}

// Writes a 32-bit number over four bytes.
pub fn write_word(part: &mut [u8], x: u32)
    requires { length part.old ≡ 4 }
    ensures { part.new ≡ le_bytes 4 x }
{
    part.copy_from_slice(&x.to_le_bytes());
}
