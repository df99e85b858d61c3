// What a load comes to (document 02, N10): counted, and written as lines.
#![tactic(auto)]

ghost use Rattle.std.specs.Prelude.{◌≡◌, ◌<◌, length};
ghost use Rattle.fields.specs.Written.{Written};
ghost use Rattle.load_text.specs.LoadText.{counted, load_text};

// What a load comes to.
#[derive(Clone, Copy)]
pub struct Counts {
    pub refusals: u32,
    pub equal: u32,
}

// One more, if so.
pub fn count(so: bool, n: u32) -> u32
    requires { n < 4294967295 }
    ensures { result ≡ counted so n }
{
    if so { n + 1 } else { n }
}

// The four lines.
// Kept: a slice of 4,096 bytes: an array alone would ask more of callers.
pub fn put_load(page: &mut [u8], seed: u32, draws: u32, c: Counts) -> usize
    requires { length page.old ≡ 4096 }
    ensures { Written page.old page.new 0 result 70 (load_text seed draws c) }
{
    let d = fields::put_field(page, 0, b"seed=", seed, 10);
    let r = fields::put_field(page, d, b"draws=", draws, 10);
    let e = fields::put_field(page, r, b"refusals=", c.refusals, 10);
    fields::put_field(page, e, b"equal=", c.equal, 10)
}
