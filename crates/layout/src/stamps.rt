// The two bounds of 13: how far a box's stamps go.
ghost use Rattle.std.specs.Prelude.{◌≡◌};
ghost use Rattle.layout.specs.Stamps.{largest_stamp, opening_bound};

use crate::{Label, WINDOW};

// The largest stamp.
pub fn largest_stamp(l: Label) -> u32
    ensures { result ≡ largest_stamp l }
{
    4294967295
}

// From which on no slot is opened: offers, fetches and lists stop 63 below the largest stamp.
pub fn opening_bound(l: Label) -> u32
    ensures { result ≡ opening_bound l }
{
    largest_stamp(l) - (WINDOW as u32)
}
