// "Reopen: fill the table from the pages." Everything is judged before anything is changed.
ghost use Rattle.std.specs.Prelude.{◌≡◌};
ghost use Rattle.record.specs.declared.Record.{Record};
ghost use Rattle.protocol.specs.Calls.{ends, reopen_of};

use crate::fill;
use moves::answers;
use protocol::{Answer, Outcome, Refusal};
use stored::image;

// The record handed in is not asked for: a reopening judges none, and a refusal leaves it.
pub fn reopen(ssd: &[u8], hdd: &[u8], table: &mut [u32]) -> Result<Outcome, Refusal>
    ensures { (state : Record) → ends state result ssd.now hdd.now table.new ≡ reopen_of ssd.now hdd.now table.old state }
{
    let Some(l) = image::label_of(ssd) else {
        return Err(Refusal::NoLabel);
    };
    if !judging::lengths_ok(l, ssd.len(), hdd.len(), table.len()) {
        return Err(Refusal::WrongLength);
    }
    if !image_rules::pages_ok(ssd, l) {
        return Err(Refusal::BadRows);
    }
    Ok(answers::answered(Answer::Done, fill::recover(ssd, table, l)))
}
