// A block's condition in the running table, from where the one pass found it in the table that was handed in.
ghost use Rattle.std.specs.Prelude.{◌≡◌, ◌*◌, ◌+◌, length};
ghost use Rattle.layout.specs.Places.{table_length};
ghost use Rattle.protocol.specs.Condition.{condition_of};
ghost use Rattle.list_turns.specs.Found.{Found};

use layout::{Block, Label, Slot};
use protocol::Condition;
use table::{condition, rows};

// The condition of a block whose word this is: not cached where no row held it; by its row where that still holds it; where an earlier
// place took the row it is searched again.
#[tactic(auto, unfolding(protocol::specs::Condition::condition_of))]
pub fn condition_of(l: Label, table: &[u32], b: Block, word: u32) -> Condition
    requires table_len { length table.now ≡ table_length l }
    requires found { Found l.slots table.now b.0 word }
    ensures { result ≡ condition_of table.now b }
{
    // Kept: the one pass fills a C caller's list of words, each a slot plus 1, or 0.
    if word == 0 {
        return Condition::NotCached;
    }
    let at = Slot(word - 1);
    let k = 2 * (at.0 as usize);
    if rows::holds(table[k], table[k + 1], b.0) {
        return condition::condition(table, Some(at));
    }
    let again = rows::find(l, table, b);
    condition::condition(table, again)
}
