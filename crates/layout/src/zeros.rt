// Ranges of zero bytes.
ghost use Rattle.std.specs.Prelude.{◌≡◌, ◌≤◌, length};
ghost use Rattle.layout.specs.PageRule.{zero_test};

// Whether the bytes from..to are zero. No byte ends it early, so that the compiler takes several at a time.
pub fn all_zero(bytes: &[u8], from: usize, to: usize) -> bool
    requires { to ≤ length bytes.now }
    ensures { result ≡ zero_test from to bytes.now }
{
    let part = &bytes[from.min(to)..to];
    let mut zero = true;
    for b in part {
        zero &= *b == 0;
    }
    zero
}
