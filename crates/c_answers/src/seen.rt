// Where the page of a view lies.
ghost use Rattle.std.specs.Prelude.{◌≡◌};
ghost use Rattle.layout.specs.Places.{data_place, block_place};
ghost use Rattle.c_answers.specs.Codes.{page_of};
ghost use Rattle.c_answers.specs.Seen.{place_for};

use crate::Place;
use layout::{Block, Label, Slot, places};
use protocol::Condition;

// A slot's page.
fn in_ssd(l: Label, s: Slot) -> Place
    ensures { result ≡ page_of 1 (data_place l s) }
{
    Place {
        image: 1,
        offset: 4096 * places::data_place(l, s) as u64,
    }
}

// A block's page.
fn in_hdd(l: Label, b: Block) -> Place
    ensures { result ≡ page_of 2 (block_place l b) }
{
    Place {
        image: 2,
        offset: 4096 * places::block_place(l, b) as u64,
    }
}

// Where a block's page lies, by its condition.
pub fn place_for(l: Label, b: Block, condition: Condition) -> Place
    ensures { result ≡ place_for l b condition }
{
    match condition {
        Condition::Clean(s) | Condition::Dirty(s) => in_ssd(l, s),
        _ => in_hdd(l, b),
    }
}
