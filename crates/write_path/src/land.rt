// "Land 4,096 bytes for a block open for writing, or dirty and not open: store its slot's page." Document 02, N2: it sets the used
// flag, of a slot that was open or not.
ghost use Rattle.std.specs.Prelude.{◌≡◌};
ghost use Rattle.protocol.specs.Calls.{ends, land_of};

use layout::{Block, Slot, places};
use moves::answers;
use protocol::{Answer, Condition, Outcome, Refusal};
use record::Record;

pub fn land(
    ssd: &mut [u8],
    hdd: &[u8],
    table: &mut [u32],
    state: Record,
    block: Block,
    page: &[u8],
) -> Result<Outcome, Refusal>
    ensures { ends state result ssd.new hdd.now table.new ≡ land_of ssd.old hdd.now table.old state block page.now }
{
    let seen = judging::judge_block(ssd.len(), hdd.len(), page.len(), table, state, block, 0)?;
    match seen.condition {
        Condition::NotCached => Err(Refusal::WrongState),
        Condition::Clean(_) => Err(Refusal::WrongState),
        Condition::Dirty(s) => {
            let stored = moves::store_page(ssd, state, s, page);
            moves::land_row(table, s, true);
            Ok(answers::stored(Answer::Done, state, stored))
        }
        Condition::Writing(s) => {
            let stored = moves::store_page(ssd, state, s, page);
            let next = moves::close_slot(table, state, s, true);
            Ok(answers::stored(Answer::Done, next, stored))
        }
        Condition::Fetching(_) => Err(Refusal::WrongState),
    }
}
