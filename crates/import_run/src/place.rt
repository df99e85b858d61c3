// One place of an import: its block is offered, once more after a copy-out, and landed.
ghost use Rattle.std.specs.Prelude.{◌≡◌, true, ◌+◌, ◌*◌, ◌<◌, length, Ok};
ghost use Rattle.layout.specs.Places.{table_length};
ghost use Rattle.protocol.specs.Rows.{row_flags, dirty};
ghost use Rattle.protocol.specs.Condition.{condition_of};
ghost use Rattle.sweeping.specs.Sweeps.{cleared_from};
ghost use Rattle.turns.specs.Turns.{offer_turn_at, spent};
ghost use Rattle.list_turns.specs.Found.{Found};
ghost use Rattle.import_run.specs.Runs.{Steady, Early, Lands, Takes, lands, landed_row, opens_if, taken, copies_out, copied_table, offered, dirty_slot, place_after};

use crate::Run;
use layout::{Block, Label, Slot};
use list_turns::found;
use protocol::{Condition, Refusal};
use sweeping::sweep;
use turns::turn;
use turns::turn::Turn;

// A write lands in a slot: its row, and a data store.
fn land(table: &mut [u32], run: &mut Run, s: Slot)
    requires lands { Lands table.old s }
    requires landings_bound { run.old.landings < 64 }
    ensures run_value { run.new ≡ lands run.old }
    ensures table_value { table.new ≡ landed_row table.old s }
{
    moves::land_row(table, s, true);
    run.landings += 1;
}

// A slot is opened, with the hand after it, and its page lands: a metadata store, with a stamp, and a data store. Without a stamp 13 is met.
fn open(
    l: Label,
    table: &mut [u32],
    run: &mut Run,
    b: Block,
    s: Slot,
    flags: u32,
    passed: u32,
    hand: Slot,
) -> Result<(), Refusal>
    requires table_len { (length table.old ≡ table_length l) × (run.old.hand.0 < l.slots) }
    requires s_lt_slots { (s.0 < l.slots) × (flags < 16) }
    requires early { Early run.old }
    ensures { record { met = result; run = run.new; table = table.new } ≡ opens_if (spent l run.old.newest) l table.old run.old b s flags passed hand }
{
    if turn::is_spent(l, run.newest) {
        return Err(Refusal::StampsSpent);
    }
    sweep::clear_used(l, table, run.hand, passed);
    moves::set_row(table, s, b, flags);
    run.hand = hand;
    run.newest += 1;
    run.metadata += 1;
    land(table, run, s);
    Ok(())
}

// A turn that copies nothing out, and the landing after it; `d` is the slot of a block that is dirty.
fn take(
    l: Label,
    table: &mut [u32],
    run: &mut Run,
    b: Block,
    turn: Turn,
    d: Slot,
) -> Result<(), Refusal>
    requires table_len { (length table.old ≡ table_length l) × (run.old.hand.0 < l.slots) }
    requires takes { Takes (Ok turn) l table.old d }
    requires early { Early run.old }
    ensures { record { met = result; run = run.new; table = table.new } ≡ taken (Ok turn) l table.old run.old b d }
{
    match turn {
        Turn::Passes => {
            land(table, run, d);
            Ok(())
        }
        Turn::Opens(s, flags, passed, hand) => open(l, table, run, b, s, flags, passed, hand),
        Turn::CopiesOut(_, _) => Ok(()),
    }
}

// A slot is copied out: its row is clean, and the hand stays on it.
fn copy_out(l: Label, table: &mut [u32], run: &mut Run, s: Slot, passed: u32)
    requires table_len { (length table.old ≡ table_length l) × (run.old.hand.0 < l.slots) }
    requires s_lt_slots { s.0 < l.slots }
    requires s_value { dirty (row_flags (cleared_from passed l table.old run.old.hand) s) ≡ true }
    requires copies_bound { run.old.copies < 64 }
    ensures run_value { run.new ≡ copies_out s run.old }
    ensures table_value { table.new ≡ copied_table l table.old run.old.hand s passed }
{
    sweep::clear_used(l, table, run.hand, passed);
    let k = 2 * (s.0 as usize) + 1;
    table[k] -= 2;
    run.hand = s;
    run.copies += 1;
}

// A block's turn, and after a copy-out its turn once more.
fn offer(
    l: Label,
    table: &mut [u32],
    run: &mut Run,
    full: Option<Refusal>,
    b: Block,
    turn: Turn,
    d: Slot,
) -> Result<(), Refusal>
    requires steady { Steady l table.old run.old.hand }
    requires b_lt_blocks { b.0 < l.blocks }
    requires turn_value { Ok turn ≡ offer_turn_at l table.old run.old.hand full (condition_of table.old b) }
    requires d_value { d ≡ dirty_slot (condition_of table.old b) }
    requires early { Early run.old × (run.old.copies < 64) }
    ensures { record { met = result; run = run.new; table = table.new } ≡ offered (Ok turn) l table.old run.old full b d }
{
    let Turn::CopiesOut(s, passed) = turn else {
        return take(l, table, run, b, turn, d);
    };
    copy_out(l, table, run, s, passed);
    let again = turn::offer_at(l, table, s, full, Condition::NotCached)?;
    take(l, table, run, b, again, d)
}

// The slot of a dirty block; slot 0, at which nothing looks, of any other.
fn dirty_slot(condition: Condition) -> Slot
    ensures { result ≡ dirty_slot condition }
{
    match condition {
        Condition::Dirty(s) => s,
        _ => Slot(0),
    }
}

// One place, whose block the one pass found where `word` says; `full` refuses another slot, if anything does.
pub fn place(
    l: Label,
    table: &mut [u32],
    run: &mut Run,
    full: Option<Refusal>,
    b: Block,
    word: u32,
) -> Result<(), Refusal>
    requires steady { Steady l table.old run.old.hand }
    requires found { Found l.slots table.old b.0 word }
    requires early { Early run.old × (run.old.copies < 64) }
    ensures { record { met = result; run = run.new; table = table.new } ≡ place_after l table.old run.old full b }
{
    if l.blocks <= b.0 {
        return Err(Refusal::BlockTooHigh);
    }
    let condition = found::condition_of(l, table, b, word);
    let turn = turn::offer_at(l, table, run.hand, full, condition)?;
    offer(l, table, run, full, b, turn, dirty_slot(condition))
}
