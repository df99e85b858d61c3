// The run of a load (document 02, N10): P1's box, draws one after another, and how many blocks read as on the plain disk then.
#![tactic(auto)]

ghost use Rattle.std.specs.Prelude.{◌≡◌, length};
ghost use Rattle.pages.specs.Pages.{page_at, Holds};
ghost use Rattle.protocol.specs.Calls.{state_in, box_of};
ghost use Rattle.protocol.specs.Events.{read_of, formatted};
ghost use Rattle.load_run.specs.Runs.{blank_record, run_from, ran_left, same, equal_to};

use layout::{Block, places};
use load_text::count;
use load_turns::make;
use maintenance::format;
use protocol::{Outcome, Refusal};
use read_path::view;
use record::Record;
use steps::step;

// The record after a call: a refusal leaves the one handed in.
fn after(state: Record, made: Result<Outcome, Refusal>) -> Record
    ensures { result ≡ state_in state made }
{
    match made {
        Ok(outcome) => outcome.state,
        Err(_) => state,
    }
}

// Formats a box of 4 slots and 8 blocks, to its end: three steps.
pub fn prepare(ssd: &mut [u8], hdd: &[u8], table: &mut [u32]) -> Record
    ensures { box_of ssd.new hdd.now table.new result ≡ formatted 4 8 (box_of ssd.old hdd.now table.old blank_record) }
{
    let blank = format::begun(places::label(4, 8));
    let begun = after(blank, format::format(ssd, hdd, table, 4, 8));
    let first = after(begun, step::step(ssd, hdd, table, begun));
    let second = after(first, step::step(ssd, hdd, table, first));
    after(second, step::step(ssd, hdd, table, second))
}

// Makes the draws from a seed on: how many were refused. The record is changed where it stands.
pub fn run(
    ssd: &mut [u8],
    hdd: &mut [u8],
    table: &mut [u32],
    plain: &mut [u8],
    state: &mut Record,
    seed: u32,
    draws: u32,
) -> u32
    requires { length plain.old ≡ 32768 }
    ensures { ran_left state.new result ssd.new hdd.new table.new plain.new ≡ run_from draws seed (record { box = box_of ssd.old hdd.old table.old state.old; plain = plain.old; refusals = 0 }) }
{
    let mut refusals: u32 = 0;
    let mut s = seed;
    for i in 0..draws {
        s = draws::draw(s);
        let turn = make(ssd, hdd, table, plain, state, s);
        refusals = count(turn.is_err(), refusals);
    }
    refusals
}

// Whether a block reads as on the plain disk.
fn reads_same<'a>(
    ssd: &'a [u8],
    hdd: &'a [u8],
    table: &[u32],
    plain: &[u8],
    state: Record,
    b: Block,
) -> bool
    requires { Holds plain.now b.0 }
    ensures { result ≡ same (read_of (box_of ssd.now hdd.now table.now state) b) (page_at plain.now b.0) }
{
    match view::view(ssd, hdd, table, state, b) {
        Ok(page) => check::same(page, pages::page_at(plain, b.0 as usize)),
        Err(_) => false,
    }
}

// How many blocks do.
pub fn count_equal<'a>(
    ssd: &'a [u8],
    hdd: &'a [u8],
    table: &[u32],
    plain: &[u8],
    state: Record,
) -> u32
    requires { length plain.now ≡ 32768 }
    ensures { result ≡ equal_to 8 (box_of ssd.now hdd.now table.now state) plain.now }
{
    let mut n: u32 = 0;
    for b in 0..8 {
        n = count(reads_same(ssd, hdd, table, plain, state, Block(b)), n);
    }
    n
}
