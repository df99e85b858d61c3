// The run of a list in memory, place after place. It changes one record where it stands: a record that is passed is copied.
#![tactic(auto)]

ghost use Rattle.std.specs.Prelude.{◌≡◌, true, ◌≤◌, length};
ghost use Rattle.protocol.specs.Judge.{names_once, scan_most};
ghost use Rattle.record.specs.Callers.{import_caller};
ghost use Rattle.locating.specs.Places.{places_of};
ghost use Rattle.list_run.specs.Runs.{Fair, Ran, offered_as, refused13};

use layout::{Block, places};
use list_turns::deal;
use protocol::Refusal;
use record::Record;
use turns::turn;
use turns::turn::Turn;

// The run of a list: the record that the places dealt with leave, the metadata page of the first slot announced, if any is, and how many
// places were dealt with.
#[derive(Clone, Copy)]
pub struct Run {
    pub state: Record,
    pub page: Option<u32>,
    pub places: u32,
}

// All places, to the first that is not dealt with; 13 where the first slot to be announced has no stamp to spare. `words` is where the one
// pass found each.
pub fn run_places(
    table: &mut [u32],
    state: Record,
    blocks: &[u32],
    words: &[u32],
    caller: u32,
) -> Result<Run, Refusal>
    requires fair { Fair table.old state }
    requires words_value { words.now ≡ places_of table.old blocks.now }
    requires blocks_len_bound { length blocks.now ≤ scan_most }
    requires blocks_value { names_once blocks.now ≡ true }
    requires caller_le_import_caller { caller ≤ import_caller }
    ensures { Ran (refused13 table.old state blocks.now caller) table.old state table.new result (offered_as table.old state blocks.now caller) }
{
    let mut mine = turn::held(state, caller);
    let mut run = Run {
        state,
        page: None,
        places: 0,
    };
    for (j, b) in blocks.iter().enumerate() {
        let l = run.state.label;
        let b = Block(*b);
        let full = turn::crowded(run.state.count, mine);
        let Ok(turn) = deal::decide(l, table, run.state.hand, full, b, words[j]) else {
            return Ok(run);
        };
        if !deal::goes_on(l, turn, run.page, run.state.newest)? {
            return Ok(run);
        }
        run.places += 1;
        let Turn::Opens(s, flags, passed, hand) = turn else {
            continue;
        };
        deal::open(l, table, run.state.hand, passed, s, b, flags);
        let at = run.state.count as usize;
        run.state.hand = hand;
        run.state.window[at] = s;
        run.state.callers[at] = caller;
        run.state.count += 1;
        mine += caller;
        run.page = Some(places::meta_of(s));
    }
    Ok(run)
}
