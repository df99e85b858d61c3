// One place of a list: its turn is decided with nothing changed; whether the run goes on with it; and its row, where it opens a slot. No
// record is passed: it would be copied at each place.
ghost use Rattle.std.specs.Prelude.{◌≡◌, ◌<◌, length, Ok};
ghost use Rattle.layout.specs.Places.{table_length};
ghost use Rattle.protocol.specs.Rows.{set_row};
ghost use Rattle.sweeping.specs.Sweeps.{cleared_from};
ghost use Rattle.turns.specs.Turns.{Sweepable};
ghost use Rattle.list_turns.specs.Found.{Found};
ghost use Rattle.list_turns.specs.PlaceTurns.{joins, goes_on, place_turn_at};

use crate::found;
use layout::{Block, Label, Slot, places};
use protocol::Refusal;
use sweeping::sweep;
use turns::turn;
use turns::turn::Turn;

// Whether a slot on metadata page `p` joins those announced, the first of them on `page`, if any is; 13 where it would be the first, and no
// stamp is left.
fn joins(l: Label, page: Option<u32>, newest: u32, p: u32) -> Result<bool, Refusal>
    ensures { result ≡ joins l page newest p }
{
    match page {
        Some(first) => Ok(p == first),
        None => {
            if turn::is_spent(l, newest) {
                return Err(Refusal::StampsSpent);
            }
            Ok(true)
        }
    }
}

// Whether the run goes on with a turn: not where it copies out, or opens a slot on another metadata page; 13 refuses the list.
pub fn goes_on(l: Label, turn: Turn, page: Option<u32>, newest: u32) -> Result<bool, Refusal>
    ensures { result ≡ goes_on l (Ok turn) page newest }
{
    match turn {
        Turn::Passes => Ok(true),
        Turn::Opens(s, _, _, _) => joins(l, page, newest, places::meta_of(s)),
        Turn::CopiesOut(_, _) => Ok(false),
    }
}

// The turn of a place of the list, whose block the one pass found where `word` says, with the hand here, where this refuses another slot, if
// anything does.
#[tactic(auto, using(crate::proofs::PlaceTurnLaws::turn_high, crate::proofs::PlaceTurnLaws::turn_low))]
pub fn decide(
    l: Label,
    table: &[u32],
    hand: Slot,
    full: Option<Refusal>,
    b: Block,
    word: u32,
) -> Result<Turn, Refusal>
    requires sweepable { Sweepable l table.now hand }
    requires found { Found l.slots table.now b.0 word }
    ensures { result ≡ place_turn_at l table.now hand full b }
{
    if l.blocks <= b.0 {
        return Err(Refusal::BlockTooHigh);
    }
    let condition = found::condition_of(l, table, b, word);
    turn::offer_at(l, table, hand, full, condition)
}

// A slot is opened in the table: those that the sweep passed from the hand on lose their used flags, and its row is set.
pub fn open(l: Label, table: &mut [u32], hand: Slot, passed: u32, s: Slot, b: Block, flags: u32)
    requires table_len { (length table.old ≡ table_length l) × (hand.0 < l.slots) }
    requires s_lt_slots { s.0 < l.slots }
    ensures { table.new ≡ set_row (cleared_from passed l table.old hand) s b flags }
{
    sweep::clear_used(l, table, hand, passed);
    moves::set_row(table, s, b, flags);
}
