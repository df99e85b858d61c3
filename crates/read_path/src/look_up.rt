// "Look up a block": by document 02, N5, its answer is the block's condition, with the slot; "It still sets the used flag only for
// clean and dirty".
ghost use Rattle.std.specs.Prelude.{◌≡◌};
ghost use Rattle.protocol.specs.Calls.{ends, look_up_of};

use layout::Block;
use moves::answers;
use protocol::{Answer, Condition, Outcome, Refusal};
use record::Record;

pub fn look_up(
    ssd: &[u8],
    hdd: &[u8],
    table: &mut [u32],
    state: Record,
    block: Block,
) -> Result<Outcome, Refusal>
    ensures { ends state result ssd.now hdd.now table.new ≡ look_up_of ssd.now hdd.now table.old state block }
{
    let seen = judging::judge_block(ssd.len(), hdd.len(), 4096, table, state, block, 0)?;
    let condition = seen.condition;
    match condition {
        Condition::NotCached => Ok(answers::answered(Answer::Looked(condition), state)),
        Condition::Clean(s) => {
            moves::use_slot(table, s);
            Ok(answers::answered(Answer::Looked(condition), state))
        }
        Condition::Dirty(s) => {
            moves::use_slot(table, s);
            Ok(answers::answered(Answer::Looked(condition), state))
        }
        Condition::Writing(_) => Ok(answers::answered(Answer::Looked(condition), state)),
        Condition::Fetching(_) => Ok(answers::answered(Answer::Looked(condition), state)),
    }
}
