// "Fetch a block not cached: as an offer by sweep, with flags 5."
ghost use Rattle.std.specs.Prelude.{◌≡◌};
ghost use Rattle.protocol.specs.Calls.{ends, fetch_of};

use layout::Block;
use protocol::{Outcome, Refusal};
use record::Record;
use turns::turn;

pub fn fetch(
    ssd: &mut [u8],
    hdd: &mut [u8],
    table: &mut [u32],
    state: Record,
    block: Block,
    caller: u32,
) -> Result<Outcome, Refusal>
    ensures { ends state result ssd.new hdd.new table.new ≡ fetch_of ssd.old hdd.old table.old state block caller }
{
    let seen = judging::judge_block(ssd.len(), hdd.len(), 4096, table, state, block, caller)?;
    let turn = turn::fetch(table, state, caller, seen.condition, seen.writing)?;
    performing::perform(ssd, hdd, table, state, block, caller, turn)
}
