// The run of a whole list in memory, place after place.
ghost use Rattle.std.specs.Prelude.{◌≡◌, true, ◌≤◌, length, Ok};
ghost use Rattle.protocol.specs.Judge.{names_once, scan_most};
ghost use Rattle.locating.specs.Places.{places_of};
ghost use Rattle.import_run.specs.Runs.{Steady, counts_in, begun, run_from};

use crate::{Run, place};
use layout::{Block, Label, Slot};
use protocol::{Cost, Counts, Refusal};

// The stores of a run.
fn counts_of(run: Run) -> Counts
    ensures { result ≡ counts_in run }
{
    Counts {
        copies: run.copies,
        metadata: run.metadata,
        landings: run.landings,
    }
}

// All places, to the first that meets a refusal; `words` is where the one pass found each, and `full` refuses another slot, if anything does.
pub fn run(
    l: Label,
    table: &mut [u32],
    hand: Slot,
    newest: u32,
    full: Option<Refusal>,
    blocks: &[u32],
    words: &[u32],
) -> Cost
    requires steady { Steady l table.old hand }
    requires words_value { words.now ≡ places_of table.old blocks.now }
    requires blocks_len_bound { length blocks.now ≤ scan_most }
    requires blocks_value { names_once blocks.now ≡ true }
    ensures { record { answer = Ok result; scratch = table.new } ≡ run_from l full 0 blocks.now (begun hand newest) table.old }
{
    let mut run = Run {
        hand,
        newest,
        copies: 0,
        metadata: 0,
        landings: 0,
    };
    for (j, b) in blocks.iter().enumerate() {
        if let Err(refusal) = place::place(l, table, &mut run, full, Block(*b), words[j]) {
            return Cost::Met(refusal.number(), j as u32, counts_of(run));
        }
    }
    Cost::Counted(counts_of(run))
}
