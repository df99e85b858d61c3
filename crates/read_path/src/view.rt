// "View a block: hands back that page of the SSD image itself, if cached and not open; else that page of the HDD image."
ghost use Rattle.std.specs.Prelude.{◌≡◌, [], MatchResult};
ghost use Rattle.protocol.specs.Judge.{number_of};
ghost use Rattle.pages.specs.Parts.{part};
ghost use Rattle.protocol.specs.Calls.{view_of};

use layout::{Block, places};
use protocol::{Condition, Refusal};
use record::Record;

pub fn view<'a>(
    ssd: &'a [u8],
    hdd: &'a [u8],
    table: &[u32],
    state: Record,
    block: Block,
) -> Result<&'a [u8], Refusal>
    ensures { MatchResult result (λ page. record { number = 0; handed = part page } ≡ view_of (part ssd.entry) (part hdd.entry) table.now state block) (λ r. record { number = number_of r; handed = record { bytes = []; place = (part ssd.entry).place } } ≡ view_of (part ssd.entry) (part hdd.entry) table.now state block) }
{
    let seen = judging::judge_block(ssd.len(), hdd.len(), 4096, table, state, block, 0)?;
    let l = state.label;
    match seen.condition {
        Condition::NotCached => Ok(pages::page_at(hdd, places::block_place(l, block))),
        Condition::Clean(s) => Ok(pages::page_at(ssd, places::data_place(l, s))),
        Condition::Dirty(s) => Ok(pages::page_at(ssd, places::data_place(l, s))),
        Condition::Writing(_) => Ok(pages::page_at(hdd, places::block_place(l, block))),
        Condition::Fetching(_) => Ok(pages::page_at(hdd, places::block_place(l, block))),
    }
}
