// A list of blocks offered as one (document 02, N3): "treated as offers one after another". It is judged (scan_rule), run in memory place
// after place (list_run), and stored once.
#![tactic(auto)]

ghost use Rattle.std.specs.Prelude.{◌≡◌, true, ◌≤◌, length};
ghost use Rattle.layout.specs.Places.{hdd_length};
ghost use Rattle.record.specs.Record.{label_in};
ghost use Rattle.record.specs.Callers.{import_caller};
ghost use Rattle.protocol.specs.Box.{left};
ghost use Rattle.protocol.specs.Condition.{condition_of};
ghost use Rattle.protocol.specs.Judge.{names_once, scan_most};
ghost use Rattle.protocol.specs.Calls.{ends, box_of, offer_list_of};
ghost use Rattle.judging.specs.Fits.{FitsRecord};
ghost use Rattle.turns.specs.Turns.{turned};
ghost use Rattle.list_run.specs.Runs.{Fair, Ran, offered_as, refused13, place_turn};

use layout::Block;
use list_run::Run;
use locating::pass;
use moves::answers;
use protocol::{Answer, Condition, Outcome, Refusal};
use record::Record;
use turns::turn;

// The list run in memory, after one pass over the table that finds all its blocks.
fn run_all(table: &mut [u32], state: Record, blocks: &[u32], caller: u32) -> Result<Run, Refusal>
    requires fair { Fair table.old state }
    requires blocks_len_bound { length blocks.now ≤ scan_most }
    requires blocks_value { names_once blocks.now ≡ true }
    requires caller_le_import_caller { caller ≤ import_caller }
    ensures { Ran (refused13 table.old state blocks.now caller) table.old state table.new result (offered_as table.old state blocks.now caller) }
{
    let n = blocks.len();
    let mut words = [0u32; scan_rule::MOST];
    pass::locate(state.label, table, blocks, &mut words[..n]);
    list_run::run_places(table, state, blocks, &words[..n], caller)
}

// The first block alone, where no place was dealt with: it is refused, or it copies out.
fn alone(
    ssd: &mut [u8],
    hdd: &mut [u8],
    table: &mut [u32],
    state: Record,
    b: Block,
    caller: u32,
    condition: Condition,
) -> Result<Outcome, Refusal>
    requires fits_record { FitsRecord (length ssd.old) (length table.old) state }
    requires hdd_len { length hdd.old ≡ hdd_length (label_in state) }
    requires fair { Fair table.old state }
    requires condition_value { condition ≡ condition_of table.old b }
    ensures { ends state result ssd.exit.now hdd.new table.new ≡ left (turned (place_turn table.old state b caller) b caller (box_of ssd.entry.now hdd.old table.old state)) (record { ssd = ssd.entry.now; hdd = hdd.old }) }
{
    if state.label.blocks <= b.0 {
        return Err(Refusal::BlockTooHigh);
    }
    let turn = turn::offer(table, state, caller, condition, state.count)?;
    performing::perform(ssd, hdd, table, state, b, caller, turn)
}

// Offers the blocks for a caller. "The answer is how many list places were dealt with"; all that was announced goes out in one store.
pub fn offer_list(
    ssd: &mut [u8],
    hdd: &mut [u8],
    table: &mut [u32],
    state: Record,
    blocks: &[u32],
    caller: u32,
) -> Result<Outcome, Refusal>
    ensures { ends state result ssd.new hdd.new table.new ≡ offer_list_of ssd.old hdd.old table.old state blocks.now caller }
{
    let first = scan_rule::first_of(blocks);
    let seen = judging::judge_ready(ssd.len(), hdd.len(), 4096, table, state, first)?;
    scan_rule::judge_call(blocks, caller)?;
    let run = run_all(table, state, blocks, caller)?;
    if run.places == 0 {
        return alone(ssd, hdd, table, state, first, caller, seen.condition);
    }
    let dealt = Answer::Dealt(run.places);
    match run.page {
        Some(page) => Ok(moves::confirm(ssd, table, run.state, page, dealt)),
        None => Ok(answers::answered(dealt, state)),
    }
}
