// What an import's cost becomes for C.
ghost use Rattle.std.specs.Prelude.{◌≡◌, []};
ghost use Rattle.c_closing.specs.Counts.{cost_after};

use protocol::{Cost, Refusal};

// The code that a refusal which the run meets has.
const MEETS: u32 = 113;

// Hands the answer out: its code, and the lent numbers.
pub fn hand_out(
    answer: Result<Cost, Refusal>,
    copies: &mut u32,
    metadata: &mut u32,
    landings: &mut u32,
    number: &mut u32,
    place: &mut u32,
) -> u32
    ensures { record { code = result; scratch = []; numbers = record { copies = copies.exit.now; metadata = metadata.new; landings = landings.new; number = number.new; place = place.new } } ≡ cost_after answer [] (record { copies = copies.entry.now; metadata = metadata.old; landings = landings.old; number = number.old; place = place.old }) }
{
    match answer {
        Err(refusal) => refusal.number(),
        Ok(Cost::Counted(counts)) => {
            *copies = counts.copies;
            *metadata = counts.metadata;
            *landings = counts.landings;
            0
        }
        Ok(Cost::Met(n, at, counts)) => {
            *copies = counts.copies;
            *metadata = counts.metadata;
            *landings = counts.landings;
            *number = n;
            *place = at;
            MEETS
        }
    }
}
