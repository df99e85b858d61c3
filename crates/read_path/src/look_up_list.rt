// A list of blocks looked up (document 02, N6): by one pass over the table for the whole list, 5's check apart.
ghost use Rattle.std.specs.Prelude.{◌≡◌};
ghost use Rattle.protocol.specs.Calls.{ends, look_up_list_of, list_words_of};

use layout::Block;
use locating::{list, pass, places};
use moves::answers;
use protocol::{Answer, Outcome, Refusal};
use record::Record;

// Fills `words`, one for each of `blocks`: the slot plus 1, or 0 where the block is open or not cached.
pub fn look_up_list(
    ssd: &[u8],
    hdd: &[u8],
    table: &mut [u32],
    state: Record,
    blocks: &[u32],
    words: &mut [u32],
) -> Result<Outcome, Refusal>
    ensures { (ends state result ssd.now hdd.now table.new ≡ look_up_list_of ssd.now hdd.now table.old state blocks.now words.old) × (words.new ≡ list_words_of ssd.now hdd.now table.old state blocks.now words.old) }
{
    judging::judge_ready(ssd.len(), hdd.len(), 4096, table, state, Block(0))?;
    let l = state.label;
    list::judge_list(blocks, words.len(), l.blocks)?;
    pass::locate(l, table, blocks, words);
    places::use_places(table, words);
    Ok(answers::answered(Answer::Done, state))
}
