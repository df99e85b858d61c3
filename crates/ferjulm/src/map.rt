// A slot map: the whole cache as text, into a lent buffer.
ghost use Rattle.std.specs.Prelude.{◌≡◌};
ghost use Rattle.ferjulm.specs.Map.{c_map};

use c_record::words;
use protocol::Refusal;
use slot_map::map;

// Writes the map over the first bytes of `sheet`: 0, or a refusal, which leaves the buffer.
#[unsafe(no_mangle)]
pub extern "C" fn ferjulm_map(
    ssd: &[u8],
    hdd: &[u8],
    table: &[u32],
    words: &[u32],
    sheet: &mut [u8],
) -> u32
    ensures { record { number = result; sheet = sheet.new } ≡ c_map ssd.now hdd.now table.now words.now sheet.old }
{
    let Some(state) = words::record_in(words) else {
        return Refusal::BadRecord.number();
    };
    match map::map(ssd, hdd, table, state, sheet) {
        Ok(()) => 0,
        Err(refusal) => refusal.number(),
    }
}
