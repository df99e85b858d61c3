// The turn of an offer or a fetch, performed on images, table and record.
#![tactic(auto)]

ghost use Rattle.std.specs.Prelude.{◌≡◌, true, length, Ok};
ghost use Rattle.layout.specs.Places.{hdd_length};
ghost use Rattle.record.specs.Record.{label_in};
ghost use Rattle.record.specs.Rule.{record_test};
ghost use Rattle.protocol.specs.Box.{left};
ghost use Rattle.protocol.specs.Calls.{ends, box_of};
ghost use Rattle.table.specs.Scan.{legal_rows};
ghost use Rattle.judging.specs.Fits.{FitsRecord};
ghost use Rattle.turns.specs.Turns.{Performable, turned};

use layout::Block;
use moves::answers;
use protocol::{Answer, Outcome, Refusal};
use record::{Record, state};
use sweeping::sweep;
use turns::turn;
use turns::turn::Turn;

// Performs a turn of a block, for a caller, unless 13 refuses it: where it opens a slot or copies one out, the slots that were passed lose
// their used flags first.
pub fn perform(
    ssd: &mut [u8],
    hdd: &mut [u8],
    table: &mut [u32],
    state: Record,
    b: Block,
    caller: u32,
    turn: Turn,
) -> Result<Outcome, Refusal>
    requires fits_record { FitsRecord (length ssd.old) (length table.old) state }
    requires hdd_len { length hdd.old ≡ hdd_length (label_in state) }
    requires state_value { record_test state ≡ true }
    requires table_value { legal_rows (label_in state) table.old ≡ true }
    requires performable { Performable (Ok turn) table.old state }
    ensures { ends state result ssd.exit.now hdd.new table.new ≡ left (turned (Ok turn) b caller (box_of ssd.entry.now hdd.old table.old state)) (record { ssd = ssd.entry.now; hdd = hdd.old }) }
{
    let l = state.label;
    match turn {
        Turn::Passes => Ok(answers::answered(Answer::Overwrite, state)),
        Turn::Opens(s, flags, passed, hand) => {
            if turn::is_spent(l, state.newest) {
                return Err(Refusal::StampsSpent);
            }
            sweep::clear_used(l, table, state.hand, passed);
            Ok(moves::open_slot(ssd, table, state, s, b, caller, flags, hand))
        }
        Turn::CopiesOut(s, passed) => {
            sweep::clear_used(l, table, state.hand, passed);
            let stored = moves::copy_out(ssd, hdd, table, state, s);
            let next = state::with_hand(state, s);
            Ok(answers::stored(Answer::CopiedOut, next, stored))
        }
    }
}
