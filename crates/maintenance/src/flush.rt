// "Flush: if unsettled, store metadata page 0; else "nothing to do"."
ghost use Rattle.std.specs.Prelude.{◌≡◌};
ghost use Rattle.protocol.specs.Calls.{ends, flush_of};

use layout::{Block, stamps};
use moves::answers;
use protocol::{Answer, Outcome, Refusal};
use record::Record;

pub fn flush(ssd: &mut [u8], hdd: &[u8], table: &[u32], state: Record) -> Result<Outcome, Refusal>
    ensures { ends state result ssd.new hdd.now table.now ≡ flush_of ssd.old hdd.now table.now state }
{
    judging::judge_ready(ssd.len(), hdd.len(), 4096, table, state, Block(0))?;
    if !state.unconfirmed {
        return Ok(answers::answered(Answer::NothingToDo, state));
    }
    let top = stamps::largest_stamp(state.label);
    if top <= state.newest {
        return Err(Refusal::StampsSpent);
    }
    Ok(moves::confirm(ssd, table, state, 0, Answer::Done))
}
