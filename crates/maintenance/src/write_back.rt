// "Write back a block: if dirty, copy to HDD and mark clean; uncached or clean: "nothing to do"."
ghost use Rattle.std.specs.Prelude.{◌≡◌};
ghost use Rattle.protocol.specs.Calls.{ends, write_back_of};

use layout::Block;
use moves::answers;
use protocol::{Answer, Condition, Outcome, Refusal};
use record::Record;

pub fn write_back(
    ssd: &[u8],
    hdd: &mut [u8],
    table: &mut [u32],
    state: Record,
    block: Block,
) -> Result<Outcome, Refusal>
    ensures { ends state result ssd.now hdd.new table.new ≡ write_back_of ssd.now hdd.old table.old state block }
{
    let seen = judging::judge_block(ssd.len(), hdd.len(), 4096, table, state, block, 0)?;
    match seen.condition {
        Condition::NotCached => Ok(answers::answered(Answer::NothingToDo, state)),
        Condition::Clean(_) => Ok(answers::answered(Answer::NothingToDo, state)),
        Condition::Dirty(s) => {
            let stored = moves::copy_out(ssd, hdd, table, state, s);
            Ok(answers::stored(Answer::Done, state, stored))
        }
        Condition::Writing(_) => Err(Refusal::SlotOpen),
        Condition::Fetching(_) => Err(Refusal::SlotOpen),
    }
}
