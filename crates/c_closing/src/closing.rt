// What a call leaves of the record's words, of the slot or the number of places lent, and of the place of the page that it stored.
ghost use Rattle.std.specs.Prelude.{◌≡◌, length};
ghost use Rattle.record.specs.declared.Record.{Record};
ghost use Rattle.protocol.specs.Calls.{said_in, stored_in, state_in};
ghost use Rattle.c_record.specs.Words.{record_words};
ghost use Rattle.c_answers.specs.Codes.{code_of, slot_after, dealt_after, place_after};
ghost use Rattle.c_closing.specs.Closing.{closed_by};

use c_answers::answers;
use c_record::words;
use protocol::{Outcome, Refusal};

// Packs the record, unless the call was refused; returns the result code.
pub fn closed(words: &mut [u32], made: &Result<Outcome, Refusal>) -> u32
    requires { length words.old ≡ record_words }
    ensures { (state : Record) → record { code = result; words = words.new } ≡ closed_by (said_in made.now) (state_in state made.now) words.old }
{
    match made {
        Ok(outcome) => {
            words::pack(words, outcome.state);
            answers::code_of(outcome.answer)
        }
        Err(refusal) => refusal.number(),
    }
}

// Names the page that a call stored, unless it was refused.
pub fn name(image: &mut u32, offset: &mut u64, made: &Result<Outcome, Refusal>)
    ensures { record { image = image.exit.now; offset = offset.new } ≡ place_after (said_in made.now) (stored_in made.now) (record { image = image.entry.now; offset = offset.old }) }
{
    if let Ok(outcome) = made {
        let place = answers::place_of(outcome.stored);
        *image = place.image;
        *offset = place.offset;
    }
}

// The result code of a call.
pub fn code(made: &Result<Outcome, Refusal>) -> u32
    ensures { result ≡ code_of (said_in made.now) }
{
    match made {
        Ok(outcome) => answers::code_of(outcome.answer),
        Err(refusal) => refusal.number(),
    }
}

// The result code of a call that leaves the record, and the slot that its answer may carry.
pub fn looked(slot: &mut u32, made: &Result<Outcome, Refusal>) -> u32
    ensures { (result ≡ code_of (said_in made.now)) × (slot.new ≡ slot_after (said_in made.now) slot.old) }
{
    if let Ok(outcome) = made {
        *slot = answers::slot_of(outcome.answer, *slot);
    }
    code(made)
}

// Ends a call that may have stored a page: packs the record and names the page, unless the call was refused; returns the result code.
pub fn ended(
    words: &mut [u32],
    image: &mut u32,
    offset: &mut u64,
    made: &Result<Outcome, Refusal>,
) -> u32
    requires { length words.old ≡ record_words }
    ensures { ((state : Record) → record { code = result; words = words.new } ≡ closed_by (said_in made.now) (state_in state made.now) words.old) × (record { image = image.exit.now; offset = offset.new } ≡ place_after (said_in made.now) (stored_in made.now) (record { image = image.entry.now; offset = offset.old })) }
{
    name(image, offset, made);
    closed(words, made)
}

// Ends one whose answer may carry a slot.
pub fn ended_at(
    words: &mut [u32],
    slot: &mut u32,
    image: &mut u32,
    offset: &mut u64,
    made: &Result<Outcome, Refusal>,
) -> u32
    requires { length words.old ≡ record_words }
    ensures { ((state : Record) → record { code = result; words = words.new } ≡ closed_by (said_in made.now) (state_in state made.now) words.old) × (slot.new ≡ slot_after (said_in made.now) slot.old) × (record { image = image.exit.now; offset = offset.new } ≡ place_after (said_in made.now) (stored_in made.now) (record { image = image.entry.now; offset = offset.old })) }
{
    if let Ok(outcome) = made {
        *slot = answers::slot_of(outcome.answer, *slot);
    }
    ended(words, image, offset, made)
}

// Ends a list that was offered, whose answer says how many of its places were dealt with.
pub fn ended_list(
    words: &mut [u32],
    dealt: &mut u32,
    image: &mut u32,
    offset: &mut u64,
    made: &Result<Outcome, Refusal>,
) -> u32
    requires { length words.old ≡ record_words }
    ensures { ((state : Record) → record { code = result; words = words.new } ≡ closed_by (said_in made.now) (state_in state made.now) words.old) × (dealt.new ≡ dealt_after (said_in made.now) dealt.old) × (record { image = image.exit.now; offset = offset.new } ≡ place_after (said_in made.now) (stored_in made.now) (record { image = image.entry.now; offset = offset.old })) }
{
    if let Ok(outcome) = made {
        *dealt = answers::dealt_of(outcome.answer, *dealt);
    }
    ended(words, image, offset, made)
}
