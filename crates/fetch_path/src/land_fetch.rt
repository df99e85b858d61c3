// "Land a fetch: copies the HDD page into the slot and closes it likewise." Document 02, N2: it sets no used flag.
ghost use Rattle.std.specs.Prelude.{◌≡◌};
ghost use Rattle.protocol.specs.Calls.{ends, land_fetch_of};

use layout::{Block, Slot, places};
use moves::answers;
use protocol::{Answer, Condition, Outcome, Refusal};
use record::Record;

pub fn land_fetch(
    ssd: &mut [u8],
    hdd: &[u8],
    table: &mut [u32],
    state: Record,
    block: Block,
) -> Result<Outcome, Refusal>
    ensures { ends state result ssd.new hdd.now table.new ≡ land_fetch_of ssd.old hdd.now table.old state block }
{
    let seen = judging::judge_block(ssd.len(), hdd.len(), 4096, table, state, block, 0)?;
    match seen.condition {
        Condition::NotCached => Err(Refusal::WrongState),
        Condition::Clean(_) => Err(Refusal::WrongState),
        Condition::Dirty(_) => Err(Refusal::WrongState),
        Condition::Writing(_) => Err(Refusal::WrongState),
        Condition::Fetching(s) => {
            let stored = moves::copy_in(ssd, hdd, state, s, block);
            let next = moves::close_slot(table, state, s, false);
            Ok(answers::stored(Answer::Done, next, stored))
        }
    }
}
