// Any call, by its value: what it does is what the lists of demand 3 make of it.
ghost use Rattle.std.specs.Prelude.{◌≡◌, length};
ghost use Rattle.protocol.specs.ReferenceDisk.{Disk};
ghost use Rattle.protocol.specs.Calls.{ends, box_of};
ghost use Rattle.dispatch.specs.Dispatch.{call_of, made_of, made_by};

use crate::Request;
use fetch_path::{fetch, land_fetch};
use maintenance::{flush, format, write_back};
use protocol::{Outcome, Refusal};
use read_path::{look_up, look_up_list};
use record::Record;
use recovery::reopen;
use steps::step;
use write_path::{land, offer};

pub fn dispatch(
    request: Request,
    ssd: &mut [u8],
    hdd: &mut [u8],
    table: &mut [u32],
    state: Record,
    page: &[u8],
    blocks: &[u32],
    words: &mut [u32],
) -> Result<Outcome, Refusal>
    ensures { (disk : Disk) → made_of (call_of request page.now blocks.now (length words.old)) (ends state result ssd.new hdd.new table.new) disk ≡ made_by (call_of request page.now blocks.now (length words.old)) (record { box = box_of ssd.old hdd.old table.old state; disk = disk }) }
{
    match request {
        Request::Format(slots, blocks) => format::format(ssd, hdd, table, slots, blocks),
        Request::Step => step::step(ssd, hdd, table, state),
        Request::Offer(block, caller) => offer::offer(ssd, hdd, table, state, block, caller),
        Request::Land(block) => land::land(ssd, hdd, table, state, block, page),
        Request::Fetch(block, caller) => fetch::fetch(ssd, hdd, table, state, block, caller),
        Request::LandFetch(block) => land_fetch::land_fetch(ssd, hdd, table, state, block),
        Request::LookUp(block) => look_up::look_up(ssd, hdd, table, state, block),
        Request::LookUpList => look_up_list::look_up_list(ssd, hdd, table, state, blocks, words),
        Request::OfferList(caller) => list_offer::offer_list(
            ssd, hdd, table, state, blocks, caller,
        ),
        Request::WriteBack(block) => write_back::write_back(ssd, hdd, table, state, block),
        Request::Flush => flush::flush(ssd, hdd, table, state),
        Request::Reopen => reopen::reopen(ssd, hdd, table),
    }
}
