// The call that a draw of a load begins with, repeated past a copy-out (document 02, N10).
#![tactic(auto)]

ghost use Rattle.std.specs.Prelude.{◌≡◌, is_err};
ghost use Rattle.protocol.specs.Calls.{ends, result_of, box_of};
ghost use Rattle.load_calls.specs.Openings.{opening, past, left_of};

use draws::Kind;
use fetch_path::fetch;
use layout::Block;
use maintenance::flush;
use protocol::{Answer, Outcome, Refusal};
use read_path::look_up;
use record::Record;
use write_path::offer;

// The call that a draw begins with.
fn begin(
    ssd: &mut [u8],
    hdd: &mut [u8],
    table: &mut [u32],
    state: Record,
    kind: Kind,
    block: Block,
) -> Result<Outcome, Refusal>
    ensures { ends state result ssd.new hdd.new table.new ≡ result_of (opening kind block) (box_of ssd.old hdd.old table.old state) }
{
    match kind {
        Kind::Write => offer::offer(ssd, hdd, table, state, block, 0),
        Kind::Fetch => fetch::fetch(ssd, hdd, table, state, block, 0),
        Kind::LookUp => look_up::look_up(ssd, hdd, table, state, block),
        Kind::Flush => flush::flush(ssd, hdd, table, state),
    }
}

// The same, repeated past a copy-out: what it answers, or what refuses it. The record is changed where it stands: a copy-out changes it,
// though the call is refused then.
pub fn begin_past(
    ssd: &mut [u8],
    hdd: &mut [u8],
    table: &mut [u32],
    state: &mut Record,
    kind: Kind,
    block: Block,
) -> Result<Outcome, Refusal>
    ensures whole { ends state.new result ssd.new hdd.new table.new ≡ past (opening kind block) (box_of ssd.old hdd.old table.old state.old) }
    ensures left { record { box = box_of ssd.new hdd.new table.new state.new; refused = is_err result } ≡ left_of (past (opening kind block) (box_of ssd.old hdd.old table.old state.old)) }
{
    let first = begin(ssd, hdd, table, *state, kind, block)?;
    *state = first.state;
    if let Answer::CopiedOut = first.answer {
        let again = begin(ssd, hdd, table, *state, kind, block)?;
        *state = again.state;
        return Ok(again);
    }
    Ok(first)
}
