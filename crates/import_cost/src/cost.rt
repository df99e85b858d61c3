// "How many stores will this import cost?" Nothing changes but the lent scratch table.
ghost use Rattle.std.specs.Prelude.{◌≡◌, true, ◌≤◌, length, Ok};
ghost use Rattle.protocol.specs.Judge.{names_once, scan_most};
ghost use Rattle.protocol.specs.Cost.{cost_of};
ghost use Rattle.import_run.specs.Runs.{Steady, begun, run_from};

use crate::scratch;
use import_run::list;
use layout::{Block, Label, Slot};
use locating::pass;
use protocol::{Cost, Refusal};
use record::Record;
use turns::turn;

// The run, after one pass over the table that finds all blocks.
fn run_all(
    l: Label,
    table: &mut [u32],
    hand: Slot,
    newest: u32,
    full: Option<Refusal>,
    blocks: &[u32],
) -> Cost
    requires steady { Steady l table.old hand }
    requires blocks_len_bound { length blocks.now ≤ scan_most }
    requires blocks_value { names_once blocks.now ≡ true }
    ensures { record { answer = Ok result; scratch = table.new } ≡ run_from l full 0 blocks.now (begun hand newest) table.old }
{
    let n = blocks.len();
    let mut words = [0u32; scan_rule::MOST];
    pass::locate(l, table, blocks, &mut words[..n]);
    list::run(l, table, hand, newest, full, blocks, &words[..n])
}

// The stores of an import of the blocks by a caller, or the refusal that it would meet; the scratch table is left as the import would leave
// the table. A refusal of the question leaves it as it was.
pub fn cost(
    ssd: &[u8],
    hdd: &[u8],
    table: &[u32],
    state: Record,
    blocks: &[u32],
    caller: u32,
    scratch: &mut [u32],
) -> Result<Cost, Refusal>
    ensures { record { answer = result; scratch = scratch.new } ≡ cost_of ssd.now hdd.now table.now state blocks.now caller scratch.old }
{
    let page = scratch::lent(scratch.len(), table.len());
    let seen = judging::judge_ready(ssd.len(), hdd.len(), page, table, state, Block(0))?;
    scan_rule::judge_call(blocks, caller)?;
    pages::copy(scratch, table);
    let full = turn::crowded(seen.writing, turn::held(state, caller));
    Ok(run_all(state.label, scratch, state.hand, state.newest, full, blocks))
}
