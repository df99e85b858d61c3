// A step: of a format, or of mending.
ghost use Rattle.std.specs.Prelude.{◌≡◌, true, ◌+◌, ◌≤◌, ◌<◌, length, Some};
ghost use Rattle.pages.specs.Pages.{put_page};
ghost use Rattle.layout.specs.MetaPage.{rows_on};
ghost use Rattle.protocol.specs.Metadata.{store_place, meta_bytes};
ghost use Rattle.record.specs.Record.{label_in, window_in, with_stamp};
ghost use Rattle.protocol.specs.Recovery.{off_page};
ghost use Rattle.protocol.specs.Plan.{lowest_page};
ghost use Rattle.protocol.specs.Perform.{mended_at};
ghost use Rattle.record.specs.Rule.{record_test};
ghost use Rattle.protocol.specs.Calls.{ends, step_of};
ghost use Rattle.judging.specs.Fits.{FitsRecord};
ghost use Rattle.protocol.specs.declared.Answer.TheVariants.{Done};
ghost use Rattle.protocol.specs.declared.Stored.TheVariants.{Ssd};
ghost use Rattle.layout.specs.Window.{window_most, slots_in, window_from, ZeroPast};
ghost use Rattle.layout.specs.Stamps.{largest_stamp};
ghost use Rattle.steps.specs.Pending.{more_off, phase_at};

use layout::numbers::least;
use layout::{Block, Slot, Window, places, stamps};
use maintenance::format;
use moves::answers;
use protocol::{Answer, Outcome, Refusal};
use record::{Phase, Record, state, window};

// The lowest-numbered metadata page with a pending slot.
fn lowest_page(w: Window) -> u32
    requires { 1 ≤ w.count }
    ensures { result ≡ lowest_page (slots_in w) }
{
    let slots = w.slots();
    let mut p = places::meta_of(slots[0]);
    for i in 1..slots.len() {
        p = least(places::meta_of(slots[i]), p);
    }
    p
}

// A slot more, unless it is on page p.
fn more_off(w: Window, s: Slot, p: u32) -> Window
    requires zero_past { ZeroPast w }
    requires count_lt_window_most { w.count < window_most }
    ensures { result ≡ window_from (more_off p (slots_in w) s) }
{
    if places::meta_of(s) == p {
        return w;
    }
    window::join(w, s)
}

// The pending slots of other pages than p.
fn off_page(w: Window, p: u32) -> Window
    ensures { result ≡ window_from (off_page p (slots_in w)) }
{
    let slots = w.slots();
    let mut left = window::empty();
    for s in slots {
        left = more_off(left, *s, p);
    }
    left
}

// Mending while any slot is pending, then ready.
pub fn phase_of(count: u32) -> Phase
    ensures { result ≡ phase_at count }
{
    if count == 0 {
        Phase::Ready
    } else {
        Phase::Recovering
    }
}

// The record with the pending slots of other pages than p alone.
fn mended(state: Record, p: u32) -> Record
    ensures { result ≡ mended_at p state }
{
    let left = off_page(state::window_of(state), p);
    let next = state::with_window(state, state.unconfirmed, left);
    state::with_phase(next, phase_of(left.count))
}

// Stores the lowest-numbered page with a pending slot, with the pending slots of other pages.
fn mend(ssd: &mut [u8], table: &[u32], state: Record) -> Outcome
    requires fits_record { FitsRecord (length ssd.old) (length table.now) state }
    requires state_value { record_test state ≡ true }
    requires le_count { 1 ≤ state.count }
    requires newest_bound { state.newest < largest_stamp (label_in state) }
    ensures { (result ≡ record { answer = Done; state = with_stamp (mended_at (lowest_page (window_in state)) state) (state.newest + 1); stored = Some (Ssd (store_place (label_in state) ssd.old (lowest_page (window_in state)))) }) × (ssd.new ≡ put_page ssd.old (store_place (label_in state) ssd.old (lowest_page (window_in state))) (meta_bytes (label_in state) (state.newest + 1) (window_in (mended_at (lowest_page (window_in state)) state)) (rows_on (lowest_page (window_in state)) table.now))) }
{
    let p = lowest_page(state::window_of(state));
    let next = mended(state, p);
    moves::confirm(ssd, table, next, p, Answer::Done)
}

pub fn step(ssd: &mut [u8], hdd: &[u8], table: &[u32], state: Record) -> Result<Outcome, Refusal>
    ensures { ends state result ssd.new hdd.now table.now ≡ step_of ssd.old hdd.now table.now state }
{
    judging::judge_box(ssd.len(), hdd.len(), 4096, table, state, Block(0))?;
    match state.phase {
        Phase::Ready => Err(Refusal::WrongPhase),
        Phase::Formatting(done) => Ok(format::format_step(ssd, table, state, done)),
        Phase::Recovering => {
            let top = stamps::largest_stamp(state.label);
            if top <= state.newest {
                return Err(Refusal::StampsSpent);
            }
            Ok(mend(ssd, table, state))
        }
    }
}
