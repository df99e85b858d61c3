// "Camp leaders want the cache on one printed sheet." Nothing changes but the lent buffer.
ghost use Rattle.std.specs.Prelude.{◌≡◌};
ghost use Rattle.protocol.specs.Calls.{number_in, map_of};

use crate::text;
use layout::Block;
use protocol::Refusal;
use record::Record;

// A refusal leaves the buffer as it was.
pub fn map(
    ssd: &[u8],
    hdd: &[u8],
    table: &[u32],
    state: Record,
    sheet: &mut [u8],
) -> Result<(), Refusal>
    ensures { record { number = number_in result; sheet = sheet.new } ≡ map_of ssd.now hdd.now table.now state sheet.old }
{
    judging::judge_ready(ssd.len(), hdd.len(), 4096, table, state, Block(0))?;
    let l = state.label;
    if sheet.len() < text::map_bytes(l) {
        return Err(Refusal::SheetShort);
    }
    text::put_map(sheet, table, l);
    Ok(())
}
