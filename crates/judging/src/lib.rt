// Judging what a call is lent: document 01's numbers 3 to 7, least first, and document 02's 18 between 6 and 7.
#![tactic(auto)]

ghost use Rattle.std.specs.Prelude.{◌≡◌, true, not, length, None};
ghost use Rattle.layout.specs.Places.{table_length};
ghost use Rattle.protocol.specs.declared.Refusal.TheVariants.{BadRows};
ghost use Rattle.record.specs.Record.{label_in};
ghost use Rattle.record.specs.Rule.{record_test};
ghost use Rattle.protocol.specs.Judge.{lengths_test, rows_test};
ghost use Rattle.judging.specs.Judging.{refuse_if, sound_then, ready_then, serves_then, judged_by};

use layout::{Block, Label, places};
use protocol::{Condition, Refusal};
use record::{IMPORT, Phase, Record};
use table::{condition, rows};

// What judging finds of a block where nothing is refused: its condition, and how many rows are writing.
#[derive(Clone, Copy)]
pub struct Judged {
    pub condition: Condition,
    pub writing: u32,
}

// Whether images and table have the label's lengths.
#[tactic(auto, unfolding(protocol::specs::Judge::lengths_test))]
pub fn lengths_ok(l: Label, ssd: usize, hdd: usize, table: usize) -> bool
    ensures { result ≡ lengths_test l ssd hdd table }
{
    ssd == places::ssd_length(l) && hdd == places::hdd_length(l) && table == places::table_length(l)
}

// The rows, and what a call needs to know of them: number 5.
fn look(table: &[u32], state: Record, b: Block) -> Result<Judged, Refusal>
    requires state_value { record_test state ≡ true }
    requires table_len { length table.now ≡ table_length (label_in state) }
    ensures { result ≡ judged_by (refuse_if (not (rows_test state table.now)) BadRows None) table.now b }
{
    let l = state.label;
    let Some(scan) = rows::scan(l, table, b) else {
        return Err(Refusal::BadRows);
    };
    if !agreement::agrees(table, scan, state) {
        return Err(Refusal::BadRows);
    }
    Ok(Judged {
        condition: condition::condition(table, scan.at),
        writing: scan.writing,
    })
}

// Numbers 3, 4 and 5; `page` is the length of the page that the call is lent, 4096 where it is lent none.
pub fn judge_box(
    ssd: usize,
    hdd: usize,
    page: usize,
    table: &[u32],
    state: Record,
    b: Block,
) -> Result<Judged, Refusal>
    ensures { result ≡ judged_by (sound_then ssd hdd page table.now state None) table.now b }
{
    if !record_rule::record_ok(state) {
        return Err(Refusal::BadRecord);
    }
    if !lengths_ok(state.label, ssd, hdd, table.len()) {
        return Err(Refusal::WrongLength);
    }
    if page != 4096 {
        return Err(Refusal::WrongLength);
    }
    look(table, state, b)
}

// Numbers 3 to 6.
pub fn judge_ready(
    ssd: usize,
    hdd: usize,
    page: usize,
    table: &[u32],
    state: Record,
    b: Block,
) -> Result<Judged, Refusal>
    ensures { result ≡ judged_by (ready_then ssd hdd page table.now state None) table.now b }
{
    let judged = judge_box(ssd, hdd, page, table, state, b)?;
    match state.phase {
        Phase::Ready => Ok(judged),
        Phase::Recovering | Phase::Formatting(_) => Err(Refusal::WrongPhase),
    }
}

// Numbers 3 to 6, 18 and 7; `caller` is 0 where the call names none.
pub fn judge_block(
    ssd: usize,
    hdd: usize,
    page: usize,
    table: &[u32],
    state: Record,
    b: Block,
    caller: u32,
) -> Result<Judged, Refusal>
    ensures { result ≡ judged_by (serves_then ssd hdd page table.now state b caller None) table.now b }
{
    let judged = judge_ready(ssd, hdd, page, table, state, b)?;
    if IMPORT < caller {
        return Err(Refusal::UnknownCaller);
    }
    if state.label.blocks <= b.0 {
        return Err(Refusal::BlockTooHigh);
    }
    Ok(judged)
}
