// A draw of a load, made on the box and on the plain disk beside it (document 02, N10).
#![tactic(auto)]

ghost use Rattle.std.specs.Prelude.{◌≡◌, List, ℕ, length, is_err};
ghost use Rattle.pages.specs.Pages.{Holds};
ghost use Rattle.protocol.specs.Calls.{box_of};
ghost use Rattle.draws.specs.Draws.{draw_page};
ghost use Rattle.draws.specs.declared.Kind.TheVariants.{Write, Fetch};
ghost use Rattle.load_turns.specs.Turns.{landed, turned, turn_left};

use draws::Kind;
use fetch_path::land_fetch;
use layout::Block;
use protocol::Refusal;
use record::Record;
use write_path::land;

// Lands a write, on the box and on the plain disk. Here and below the record is changed where it stands.
fn land_write(
    ssd: &mut [u8],
    hdd: &[u8],
    table: &mut [u32],
    plain: &mut [u8],
    state: &mut Record,
    block: Block,
    s: u32,
) -> Result<(), Refusal>
    requires { Holds plain.old block.0 }
    ensures { turn_left state.new (is_err result) ssd.new hdd.now table.new plain.new ≡ landed Write block (draw_page s) (box_of ssd.old hdd.now table.old state.old) plain.old }
{
    let mut page = [0u8; 4096];
    draws::fill_page(&mut page, s);
    *state = land::land(ssd, hdd, table, *state, block, &page)?.state;
    pages::store(plain, block.0 as usize, &page);
    Ok(())
}

// Lands a fetch.
fn land_fetched(
    ssd: &mut [u8],
    hdd: &[u8],
    table: &mut [u32],
    state: &mut Record,
    block: Block,
) -> Result<(), Refusal>
    ensures { (page plain : List ℕ) → turn_left state.new (is_err result) ssd.new hdd.now table.new plain ≡ landed Fetch block page (box_of ssd.old hdd.now table.old state.old) plain }
{
    *state = land_fetch::land_fetch(ssd, hdd, table, *state, block)?.state;
    Ok(())
}

// Lands what a draw opened.
fn land_opened(
    ssd: &mut [u8],
    hdd: &[u8],
    table: &mut [u32],
    plain: &mut [u8],
    state: &mut Record,
    kind: Kind,
    block: Block,
    s: u32,
) -> Result<(), Refusal>
    requires { Holds plain.old block.0 }
    ensures { turn_left state.new (is_err result) ssd.new hdd.now table.new plain.new ≡ landed kind block (draw_page s) (box_of ssd.old hdd.now table.old state.old) plain.old }
{
    match kind {
        Kind::Write => land_write(ssd, hdd, table, plain, state, block, s),
        Kind::Fetch => land_fetched(ssd, hdd, table, state, block),
        Kind::LookUp => Ok(()),
        Kind::Flush => Ok(()),
    }
}

// The draw of a state: refused or not, it leaves a record.
pub fn make(
    ssd: &mut [u8],
    hdd: &mut [u8],
    table: &mut [u32],
    plain: &mut [u8],
    state: &mut Record,
    s: u32,
) -> Result<(), Refusal>
    requires { length plain.old ≡ 32768 }
    ensures { turn_left state.new (is_err result) ssd.new hdd.new table.new plain.new ≡ turned s (box_of ssd.old hdd.old table.old state.old) plain.old }
{
    let kind = draws::kind_of(s);
    let block = draws::block_of(s);
    load_calls::begin_past(ssd, hdd, table, state, kind, block)?;
    land_opened(ssd, hdd, table, plain, state, kind, block, s)
}
