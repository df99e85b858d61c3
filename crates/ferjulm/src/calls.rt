// The calls but a view: the words are judged and unpacked, the box's call is made, and what it leaves is packed.
ghost use Rattle.std.specs.Prelude.{◌≡◌, cond};
ghost use Rattle.protocol.specs.Judge.{number_of, label_test};
ghost use Rattle.protocol.specs.Plan.{step, flush, offer, fetch, land_fetch, look_up, write_back, land};
ghost use Rattle.ferjulm.specs.Calls.{c_call, c_slot, c_place, c_format, c_reopen};

use c_closing::{closing, fresh};
use c_record::{RECORD_WORDS, words};
use layout::{Block, places};
use maintenance::format;
use protocol::Refusal;
use recovery::reopen;

// Begins a format. The words handed in are not judged, but for their number; the new record goes straight into them.
#[unsafe(no_mangle)]
pub extern "C" fn ferjulm_format(
    ssd: &[u8],
    hdd: &[u8],
    table: &mut [u32],
    words: &mut [u32],
    slots: u32,
    blocks: u32,
) -> u32
    ensures { record { code = result; words = words.new; table = table.new; ssd = ssd.now; hdd = hdd.now } ≡ c_format slots blocks ssd.now hdd.now table.old words.old }
{
    let l = places::label(slots, blocks);
    if words.len() != RECORD_WORDS {
        return fresh::unheld(l).number();
    }
    match format::begin(l, ssd.len(), hdd.len(), table) {
        Ok(()) => {
            words::pack(words, format::begun(l));
            0
        }
        Err(refusal) => refusal.number(),
    }
}

// Offers a block, for a caller.
#[unsafe(no_mangle)]
pub extern "C" fn ferjulm_offer(
    ssd: &mut [u8],
    hdd: &mut [u8],
    table: &mut [u32],
    words: &mut [u32],
    block: u32,
    caller: u32,
    slot: &mut u32,
    image: &mut u32,
    offset: &mut u64,
) -> u32
    ensures { (record { code = result; words = words.new; table = table.new; ssd = ssd.new; hdd = hdd.new } ≡ c_call (offer (record { 0 = block }) caller) ssd.old hdd.old table.old words.old) × (slot.new ≡ c_slot (offer (record { 0 = block }) caller) ssd.old hdd.old table.old words.old slot.old) × (record { image = image.exit.now; offset = offset.new } ≡ c_place (offer (record { 0 = block }) caller) ssd.old hdd.old table.old words.old (record { image = image.entry.now; offset = offset.old })) }
{
    let Some(state) = words::record_in(words) else {
        return Refusal::BadRecord.number();
    };
    let made = write_path::offer::offer(ssd, hdd, table, state, Block(block), caller);
    closing::ended_at(words, slot, image, offset, &made)
}

// Lands a page for a block.
#[unsafe(no_mangle)]
pub extern "C" fn ferjulm_land(
    ssd: &mut [u8],
    hdd: &[u8],
    table: &mut [u32],
    words: &mut [u32],
    block: u32,
    page: &[u8],
    image: &mut u32,
    offset: &mut u64,
) -> u32
    ensures { (record { code = result; words = words.new; table = table.new; ssd = ssd.new; hdd = hdd.now } ≡ c_call (land (record { 0 = block }) page.now) ssd.old hdd.now table.old words.old) × (record { image = image.exit.now; offset = offset.new } ≡ c_place (land (record { 0 = block }) page.now) ssd.old hdd.now table.old words.old (record { image = image.entry.now; offset = offset.old })) }
{
    let Some(state) = words::record_in(words) else {
        return Refusal::BadRecord.number();
    };
    let made = write_path::land::land(ssd, hdd, table, state, Block(block), page);
    closing::ended(words, image, offset, &made)
}

// Fetches a block, for a caller.
#[unsafe(no_mangle)]
pub extern "C" fn ferjulm_fetch(
    ssd: &mut [u8],
    hdd: &mut [u8],
    table: &mut [u32],
    words: &mut [u32],
    block: u32,
    caller: u32,
    slot: &mut u32,
    image: &mut u32,
    offset: &mut u64,
) -> u32
    ensures { (record { code = result; words = words.new; table = table.new; ssd = ssd.new; hdd = hdd.new } ≡ c_call (fetch (record { 0 = block }) caller) ssd.old hdd.old table.old words.old) × (slot.new ≡ c_slot (fetch (record { 0 = block }) caller) ssd.old hdd.old table.old words.old slot.old) × (record { image = image.exit.now; offset = offset.new } ≡ c_place (fetch (record { 0 = block }) caller) ssd.old hdd.old table.old words.old (record { image = image.entry.now; offset = offset.old })) }
{
    let Some(state) = words::record_in(words) else {
        return Refusal::BadRecord.number();
    };
    let made = fetch_path::fetch::fetch(ssd, hdd, table, state, Block(block), caller);
    closing::ended_at(words, slot, image, offset, &made)
}

// Lands a fetch.
#[unsafe(no_mangle)]
pub extern "C" fn ferjulm_land_fetch(
    ssd: &mut [u8],
    hdd: &[u8],
    table: &mut [u32],
    words: &mut [u32],
    block: u32,
    image: &mut u32,
    offset: &mut u64,
) -> u32
    ensures { (record { code = result; words = words.new; table = table.new; ssd = ssd.new; hdd = hdd.now } ≡ c_call (land_fetch (record { 0 = block })) ssd.old hdd.now table.old words.old) × (record { image = image.exit.now; offset = offset.new } ≡ c_place (land_fetch (record { 0 = block })) ssd.old hdd.now table.old words.old (record { image = image.entry.now; offset = offset.old })) }
{
    let Some(state) = words::record_in(words) else {
        return Refusal::BadRecord.number();
    };
    let made = fetch_path::land_fetch::land_fetch(ssd, hdd, table, state, Block(block));
    closing::ended(words, image, offset, &made)
}

// Looks a block up. The record stays as it is, so the words are only read.
#[unsafe(no_mangle)]
pub extern "C" fn ferjulm_look_up(
    ssd: &[u8],
    hdd: &[u8],
    table: &mut [u32],
    words: &[u32],
    block: u32,
    slot: &mut u32,
) -> u32
    ensures { (record { code = result; words = words.now; table = table.new; ssd = ssd.now; hdd = hdd.now } ≡ c_call (look_up (record { 0 = block })) ssd.now hdd.now table.old words.now) × (slot.new ≡ c_slot (look_up (record { 0 = block })) ssd.now hdd.now table.old words.now slot.old) }
{
    let Some(state) = words::record_in(words) else {
        return Refusal::BadRecord.number();
    };
    let made = read_path::look_up::look_up(ssd, hdd, table, state, Block(block));
    closing::looked(slot, &made)
}

// Writes a block back.
#[unsafe(no_mangle)]
pub extern "C" fn ferjulm_write_back(
    ssd: &[u8],
    hdd: &mut [u8],
    table: &mut [u32],
    words: &mut [u32],
    block: u32,
    image: &mut u32,
    offset: &mut u64,
) -> u32
    ensures { (record { code = result; words = words.new; table = table.new; ssd = ssd.now; hdd = hdd.new } ≡ c_call (write_back (record { 0 = block })) ssd.now hdd.old table.old words.old) × (record { image = image.exit.now; offset = offset.new } ≡ c_place (write_back (record { 0 = block })) ssd.now hdd.old table.old words.old (record { image = image.entry.now; offset = offset.old })) }
{
    let Some(state) = words::record_in(words) else {
        return Refusal::BadRecord.number();
    };
    let made = maintenance::write_back::write_back(ssd, hdd, table, state, Block(block));
    closing::ended(words, image, offset, &made)
}

// Flushes.
#[unsafe(no_mangle)]
pub extern "C" fn ferjulm_flush(
    ssd: &mut [u8],
    hdd: &[u8],
    table: &[u32],
    words: &mut [u32],
    image: &mut u32,
    offset: &mut u64,
) -> u32
    ensures { (record { code = result; words = words.new; table = table.now; ssd = ssd.new; hdd = hdd.now } ≡ c_call flush ssd.old hdd.now table.now words.old) × (record { image = image.exit.now; offset = offset.new } ≡ c_place flush ssd.old hdd.now table.now words.old (record { image = image.entry.now; offset = offset.old })) }
{
    let Some(state) = words::record_in(words) else {
        return Refusal::BadRecord.number();
    };
    let made = maintenance::flush::flush(ssd, hdd, table, state);
    closing::ended(words, image, offset, &made)
}

// Makes a step, of a format or of mending.
#[unsafe(no_mangle)]
pub extern "C" fn ferjulm_step(
    ssd: &mut [u8],
    hdd: &[u8],
    table: &[u32],
    words: &mut [u32],
    image: &mut u32,
    offset: &mut u64,
) -> u32
    ensures { (record { code = result; words = words.new; table = table.now; ssd = ssd.new; hdd = hdd.now } ≡ c_call step ssd.old hdd.now table.now words.old) × (record { image = image.exit.now; offset = offset.new } ≡ c_place step ssd.old hdd.now table.now words.old (record { image = image.entry.now; offset = offset.old })) }
{
    let Some(state) = words::record_in(words) else {
        return Refusal::BadRecord.number();
    };
    let made = steps::step::step(ssd, hdd, table, state);
    closing::ended(words, image, offset, &made)
}

// Why a reopening with words that can't hold a record is refused: 3, after 2.
fn unheld(ssd: &[u8]) -> Refusal
    ensures { number_of result ≡ cond (label_test ssd.now) 3 2 }
{
    match stored::image::label_of(ssd) {
        Some(_) => Refusal::BadRecord,
        None => Refusal::NoLabel,
    }
}

// Reopens the box. The words handed in are not judged, but for their number.
#[unsafe(no_mangle)]
pub extern "C" fn ferjulm_reopen(
    ssd: &[u8],
    hdd: &[u8],
    table: &mut [u32],
    words: &mut [u32],
) -> u32
    ensures { record { code = result; words = words.new; table = table.new; ssd = ssd.now; hdd = hdd.now } ≡ c_reopen ssd.now hdd.now table.old words.old }
{
    if words.len() != RECORD_WORDS {
        return unheld(ssd).number();
    }
    let made = reopen::reopen(ssd, hdd, table);
    closing::closed(words, &made)
}
