// What an import would cost: stores counted, in a lent scratch table.
ghost use Rattle.std.specs.Prelude.{◌≡◌};
ghost use Rattle.ferjulm.specs.Cost.{c_cost};

use c_closing::counts;
use c_record::words;
use import_cost::cost;
use protocol::Refusal;

// Counts the stores that an import of the blocks by a caller would make, by kind: 0, or 113 where it would meet a refusal, with that number
// and its place in the list; or the question is refused, which leaves everything. The scratch table becomes what the import would leave of the
// table.
#[unsafe(no_mangle)]
pub extern "C" fn ferjulm_cost(
    ssd: &[u8],
    hdd: &[u8],
    table: &[u32],
    words: &[u32],
    blocks: &[u32],
    caller: u32,
    scratch: &mut [u32],
    copies: &mut u32,
    metadata: &mut u32,
    landings: &mut u32,
    number: &mut u32,
    place: &mut u32,
) -> u32
    ensures { record { code = result; scratch = scratch.new; numbers = record { copies = copies.exit.now; metadata = metadata.new; landings = landings.new; number = number.new; place = place.new } } ≡ c_cost ssd.now hdd.now table.now words.now blocks.now caller scratch.old (record { copies = copies.entry.now; metadata = metadata.old; landings = landings.old; number = number.old; place = place.old }) }
{
    let Some(state) = words::record_in(words) else {
        return Refusal::BadRecord.number();
    };
    let answer = cost::cost(ssd, hdd, table, state, blocks, caller, scratch);
    counts::hand_out(answer, copies, metadata, landings, number, place)
}
