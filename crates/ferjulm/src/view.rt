// A view: where a block's page lies.
ghost use Rattle.std.specs.Prelude.{◌≡◌};
ghost use Rattle.ferjulm.specs.View.{c_view};

use c_answers::seen;
use c_record::words;
use layout::Block;
use protocol::Refusal;

// Views a block: `image` becomes 1 for the SSD or 2 for the HDD, `offset` the page's first byte in it.
#[unsafe(no_mangle)]
pub extern "C" fn ferjulm_view(
    ssd: &[u8],
    hdd: &[u8],
    table: &[u32],
    words: &[u32],
    block: u32,
    image: &mut u32,
    offset: &mut u64,
) -> u32
    ensures { record { code = result; place = record { image = image.exit.now; offset = offset.new } } ≡ c_view ssd.now hdd.now table.now words.now (record { 0 = block }) (record { image = image.entry.now; offset = offset.old }) }
{
    let Some(state) = words::record_in(words) else {
        return Refusal::BadRecord.number();
    };
    match judging::judge_block(ssd.len(), hdd.len(), 4096, table, state, Block(block), 0) {
        Ok(judged) => {
            let place = seen::place_for(state.label, Block(block), judged.condition);
            *image = place.image;
            *offset = place.offset;
            0
        }
        Err(refusal) => refusal.number(),
    }
}
