// "Offer a write of a block": dirty and not open "overwrite", clean "announced", not cached swept for.
ghost use Rattle.std.specs.Prelude.{◌≡◌};
ghost use Rattle.protocol.specs.Calls.{ends, offer_of};

use layout::Block;
use moves::answers;
use protocol::{Answer, Outcome, Refusal};
use record::Record;
use turns::turn;
use turns::turn::Turn;

pub fn offer(
    ssd: &mut [u8],
    hdd: &mut [u8],
    table: &mut [u32],
    state: Record,
    block: Block,
    caller: u32,
) -> Result<Outcome, Refusal>
    ensures { ends state result ssd.new hdd.new table.new ≡ offer_of ssd.old hdd.old table.old state block caller }
{
    let seen = judging::judge_block(ssd.len(), hdd.len(), 4096, table, state, block, caller)?;
    let turn = turn::offer(table, state, caller, seen.condition, seen.writing)?;
    if let Turn::Passes = turn {
        // at once: performing a turn copies the record
        return Ok(answers::answered(Answer::Overwrite, state));
    }
    performing::perform(ssd, hdd, table, state, block, caller, turn)
}
