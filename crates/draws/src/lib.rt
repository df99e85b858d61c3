// The draws of a load (document 02, N10): the next state, what it picks, and the page that it lands.
#![tactic(auto)]

ghost use Rattle.std.specs.Prelude.{◌≡◌, length};
ghost use Rattle.draws.specs.Draws.{drawn, kind_of, block_of, draw_page};

use layout::Block;

// What a draw does.
#[derive(Clone, Copy)]
pub enum Kind {
    Write,
    Fetch,
    LookUp,
    Flush,
}

// The next state.
pub fn draw(s: u32) -> u32
    ensures { result ≡ drawn s }
{
    let a = s ^ (s << 13);
    let b = a ^ (a >> 17);
    b ^ (b << 5)
}

// What a state picks.
pub fn kind_of(s: u32) -> Kind
    ensures { result ≡ kind_of s }
{
    match s % 4 {
        0 => Kind::Write,
        1 => Kind::Fetch,
        2 => Kind::LookUp,
        _ => Kind::Flush,
    }
}

// The block that it picks.
pub fn block_of(s: u32) -> Block
    ensures { result ≡ block_of s }
{
    Block(s / 4 % 8)
}

// Fills a page with a state's 4 bytes.
pub fn fill_page(page: &mut [u8], s: u32)
    requires { length page.old ≡ 4096 }
    ensures { page.new ≡ draw_page s }
{
    // Kept: by place. After a loop over `chunks_exact_mut` the proof knows nothing of what the parts were given.
    for n in 0..1024 {
        let at = 4 * n;
        pages::write_word(&mut page[at..at + 4], s);
    }
}
