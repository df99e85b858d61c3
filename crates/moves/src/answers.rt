// What a call returns.
ghost use Rattle.std.specs.Prelude.{◌≡◌, Some, None};

use protocol::{Answer, Outcome, Stored};
use record::Record;

// An answer, with the record after the call, which stored nothing.
pub fn answered(answer: Answer, state: Record) -> Outcome
    ensures { result ≡ record { answer = answer; state = state; stored = None } }
{
    Outcome {
        answer,
        state,
        stored: None,
    }
}

// An answer, with the record after the call and the page that it stored.
pub fn stored(answer: Answer, state: Record, stored: Stored) -> Outcome
    ensures { result ≡ record { answer = answer; state = state; stored = Some stored } }
{
    Outcome {
        answer,
        state,
        stored: Some(stored),
    }
}
