// Lists of blocks: looked up, and offered as one.
ghost use Rattle.std.specs.Prelude.{◌≡◌, length};
ghost use Rattle.protocol.specs.Plan.{look_up_list, offer_list};
ghost use Rattle.ferjulm.specs.Calls.{c_call, c_dealt, c_place};
ghost use Rattle.ferjulm.specs.List.{c_located};

use c_closing::closing;
use c_record::words;
use protocol::Refusal;

// Looks a list of blocks up: `located` becomes the slot plus 1 of each, or 0. The record stays as it is, so the words are only read.
#[unsafe(no_mangle)]
pub extern "C" fn ferjulm_look_up_list(
    ssd: &[u8],
    hdd: &[u8],
    table: &mut [u32],
    words: &[u32],
    blocks: &[u32],
    located: &mut [u32],
) -> u32
    ensures { (record { code = result; words = words.now; table = table.new; ssd = ssd.now; hdd = hdd.now } ≡ c_call (look_up_list blocks.now (length located.old)) ssd.now hdd.now table.old words.now) × (located.new ≡ c_located blocks.now ssd.now hdd.now table.old words.now located.old) }
{
    let Some(state) = words::record_in(words) else {
        return Refusal::BadRecord.number(); // `located` stays
    };
    let made = read_path::look_up_list::look_up_list(ssd, hdd, table, state, blocks, located);
    closing::code(&made)
}

// Offers a list of blocks as one, for a caller (document 02, N3): `dealt` becomes how many of its places were dealt with.
#[unsafe(no_mangle)]
pub extern "C" fn ferjulm_offer_list(
    ssd: &mut [u8],
    hdd: &mut [u8],
    table: &mut [u32],
    words: &mut [u32],
    blocks: &[u32],
    caller: u32,
    dealt: &mut u32,
    image: &mut u32,
    offset: &mut u64,
) -> u32
    ensures { (record { code = result; words = words.new; table = table.new; ssd = ssd.new; hdd = hdd.new } ≡ c_call (offer_list blocks.now caller) ssd.old hdd.old table.old words.old) × (dealt.new ≡ c_dealt (offer_list blocks.now caller) ssd.old hdd.old table.old words.old dealt.old) × (record { image = image.exit.now; offset = offset.new } ≡ c_place (offer_list blocks.now caller) ssd.old hdd.old table.old words.old (record { image = image.entry.now; offset = offset.old })) }
{
    let Some(state) = words::record_in(words) else {
        return Refusal::BadRecord.number();
    };
    let made = list_offer::offer_list(ssd, hdd, table, state, blocks, caller);
    closing::ended_list(words, dealt, image, offset, &made)
}
