// Which line an entry has.
ghost use Rattle.std.specs.Prelude.{◌≡◌, true, false, ◌+◌, ◌≤◌, length};
ghost use Rattle.fields.specs.Written.{Written};
ghost use Rattle.list_image.specs.Listing.{dropped, line_of};

use layout::{Entry, Slot};

// Whether a valid entry with these flags is dropped.
fn is_dropped(flags: u32, s: Slot, pending: &[Slot]) -> bool
    ensures { result ≡ dropped pending.now s flags }
{
    flags / 4 % 2 == 1 && pending.contains(&s)
}

// The line of an entry, if it is valid.
pub fn put_line(page: &mut [u8], at: usize, s: Slot, entry: Entry, pending: &[Slot]) -> usize
    requires { at + 63 ≤ length page.old }
    ensures { Written page.old page.new at result 63 (line_of pending.now s entry) }
{
    if entry.flags % 2 != 1 {
        return at;
    }
    let fate = is_dropped(entry.flags, s, pending);
    list_text::put_entry(page, at, s, entry, fate)
}
