// What an answer becomes for C.
ghost use Rattle.std.specs.Prelude.{◌≡◌};
ghost use Rattle.protocol.specs.Reply.{looked, reply_of};
ghost use Rattle.c_answers.specs.Codes.{code_of, slot_after, dealt_after, page_of, place_of};

use crate::Place;
use protocol::{Answer, Condition, Stored};

// The result code of a look-up that found this.
fn code_of_condition(condition: Condition) -> u32
    ensures { result ≡ code_of (looked condition) }
{
    match condition {
        Condition::NotCached => 107,
        Condition::Clean(_) => 108,
        Condition::Dirty(_) => 109,
        Condition::Writing(_) => 110,
        Condition::Fetching(_) => 111,
    }
}

// The slot that such a look-up names, open or not, or what was there before.
fn slot_of_condition(condition: Condition, before: u32) -> u32
    ensures { result ≡ slot_after (looked condition) before }
{
    match condition {
        Condition::NotCached => before,
        Condition::Clean(s)
        | Condition::Dirty(s)
        | Condition::Writing(s)
        | Condition::Fetching(s) => s.0,
    }
}

// Its result code.
pub fn code_of(answer: Answer) -> u32
    ensures { result ≡ code_of (reply_of answer) }
{
    match answer {
        Answer::Announced(_) => 101,
        Answer::Overwrite => 102,
        Answer::CopiedOut => 103,
        Answer::Looked(condition) => code_of_condition(condition),
        Answer::NothingToDo => 106,
        Answer::Done => 0,
        Answer::Dealt(_) => 112,
    }
}

// The slot that it carries, or what was there before.
pub fn slot_of(answer: Answer, before: u32) -> u32
    ensures { result ≡ slot_after (reply_of answer) before }
{
    match answer {
        Answer::Announced(s) => s.0,
        Answer::Looked(condition) => slot_of_condition(condition, before),
        _ => before,
    }
}

// How many list places it says were dealt with, or what was there before.
pub fn dealt_of(answer: Answer, before: u32) -> u32
    ensures { result ≡ dealt_after (reply_of answer) before }
{
    match answer {
        Answer::Dealt(places) => places,
        _ => before,
    }
}

// Page `page` of an image.
fn page_of(image: u32, page: u32) -> Place
    ensures { result ≡ page_of image page }
{
    Place {
        image,
        offset: 4096 * page as u64,
    }
}

// Where the page lies that a call stored, if it stored one.
pub fn place_of(stored: Option<Stored>) -> Place
    ensures { result ≡ place_of stored }
{
    match stored {
        None => Place {
            image: 0,
            offset: 0,
        },
        Some(Stored::Ssd(page)) => page_of(1, page),
        Some(Stored::Hdd(page)) => page_of(2, page),
    }
}
