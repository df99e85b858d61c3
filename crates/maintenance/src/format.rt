// "Format": begun by zeroing the table; then one store a step.
ghost use Rattle.std.specs.Prelude.{◌≡◌, true, false, ◌+◌, ◌≤◌, ◌<◌, length, [], replicate};
ghost use Rattle.pages.specs.Pages.{put_page};
ghost use Rattle.layout.specs.Places.{within_limits, meta_span};
ghost use Rattle.record.specs.declared.Phase.TheVariants.{Formatting};
ghost use Rattle.record.specs.Record.{label_in, window_in, record_of};
ghost use Rattle.protocol.specs.Perform.{format_store, format_state};
ghost use Rattle.protocol.specs.Calls.{ends, format_of};
ghost use Rattle.judging.specs.Fits.{FitsRecord};
ghost use Rattle.protocol.specs.declared.Answer.TheVariants.{Done};
ghost use Rattle.protocol.specs.declared.Stored.TheVariants.{Ssd};
ghost use Rattle.record.specs.declared.Record.{Record};
ghost use Rattle.judging.specs.Judging.{unless};
ghost use Rattle.maintenance.specs.Format.{format_refusal, table_after};

use layout::{Label, Slot, places};
use moves::answers;
use protocol::{Answer, Outcome, Refusal, Stored};
use record::{Phase, Record, state, window};

// Refuses a format, by 1 or 4; where it is not refused the table is zeroed.
pub fn begin(l: Label, ssd: usize, hdd: usize, table: &mut [u32]) -> Result<(), Refusal>
    ensures { (result ≡ unless (format_refusal l ssd hdd (length table.old)) tt) × (table.new ≡ table_after (format_refusal l ssd hdd (length table.old)) table.old) }
{
    if !places::within_limits(l) {
        return Err(Refusal::BadLimits);
    }
    if !judging::lengths_ok(l, ssd, hdd, table.len()) {
        return Err(Refusal::WrongLength);
    }
    table.fill(0);
    Ok(())
}

// The record with which a format begins.
pub fn begun(l: Label) -> Record
    ensures { result ≡ record_of l (record { 0 = 0 }) 0 (Formatting 0) false [] }
{
    state::fresh(l, 0, Phase::Formatting(0), window::empty())
}

// The record handed in is not asked for: a format judges none, and a refusal ends it.
pub fn format(
    ssd: &[u8],
    hdd: &[u8],
    table: &mut [u32],
    slots: u32,
    blocks: u32,
) -> Result<Outcome, Refusal>
    ensures { (state : Record) → ends state result ssd.now hdd.now table.new ≡ format_of ssd.now hdd.now table.old state slots blocks }
{
    let l = places::label(slots, blocks);
    begin(l, ssd.len(), hdd.len(), table)?;
    Ok(answers::answered(Answer::Done, begun(l)))
}

// The store of a format's step, after so many of them.
fn format_store(ssd: &mut [u8], table: &[u32], state: Record, done: u32) -> Stored
    requires fits_record { FitsRecord (length ssd.old) (length table.now) state }
    requires state_value { within_limits (label_in state) ≡ true }
    ensures { (result ≡ Ssd (format_store (label_in state) table.now (window_in state) done).place) × (ssd.new ≡ put_page ssd.old (format_store (label_in state) table.now (window_in state) done).place (format_store (label_in state) table.now (window_in state) done).bytes) }
{
    if done == 0 {
        pages::clear_page(ssd, 0);
        return Stored::Ssd(0);
    }
    let l = state.label;
    let p = done - 1;
    if places::meta_span(l) <= p {
        let page = label_page::encode_label(l);
        pages::store(ssd, 0, &page);
        return Stored::Ssd(0);
    }
    moves::store_meta(ssd, table, state, 0, p)
}

// The record after a format's step, after so many of them before it.
fn format_state(state: Record, done: u32) -> Record
    requires { done ≤ meta_span (label_in state) + 1 }
    ensures { result ≡ format_state (label_in state) state done }
{
    let l = state.label;
    if places::meta_span(l) + 1 <= done {
        let next = state::with_stamp(state, 0);
        return state::with_phase(state::with_hand(next, Slot(0)), Phase::Ready);
    }
    state::with_phase(state, Phase::Formatting(done + 1))
}

// A step of a format, after so many of them.
pub fn format_step(ssd: &mut [u8], table: &[u32], state: Record, done: u32) -> Outcome
    requires fits_record { FitsRecord (length ssd.old) (length table.now) state }
    requires state_value { within_limits (label_in state) ≡ true }
    requires done_bound { done ≤ meta_span (label_in state) + 1 }
    ensures { (result ≡ record { answer = Done; state = format_state (label_in state) state done; stored = Some (Ssd (format_store (label_in state) table.now (window_in state) done).place) }) × (ssd.new ≡ put_page ssd.old (format_store (label_in state) table.now (window_in state) done).place (format_store (label_in state) table.now (window_in state) done).bytes) }
{
    let stored = format_store(ssd, table, state, done);
    let next = format_state(state, done);
    answers::stored(Answer::Done, next, stored)
}
