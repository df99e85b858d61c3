// A format by words that can't hold a record.
ghost use Rattle.std.specs.Prelude.{◌≡◌, cond};
ghost use Rattle.layout.specs.Places.{within_limits};
ghost use Rattle.protocol.specs.Judge.{number_of};

use layout::{Label, places};
use protocol::Refusal;

// Why it is refused: 3, after 1.
pub fn unheld(l: Label) -> Refusal
    ensures { number_of result ≡ cond (within_limits l) 3 1 }
{
    if places::within_limits(l) {
        Refusal::BadRecord
    } else {
        Refusal::BadLimits
    }
}
