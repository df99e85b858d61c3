// Judging a list of blocks that is offered as one (document 02, N3): 15, and 18 of its caller.
#![tactic(auto)]

ghost use Rattle.std.specs.Prelude.{◌≡◌, not, ◌+◌, drop, None};
ghost use Rattle.protocol.specs.declared.Refusal.TheVariants.{BadScan};
ghost use Rattle.protocol.specs.Plan.{first_block};
ghost use Rattle.protocol.specs.Judge.{names, names_once, scan_test};
ghost use Rattle.judging.specs.Judging.{refuse_if, scan_then, unless};

use layout::Block;
use protocol::Refusal;
use record::IMPORT;

// The most blocks that are offered as one.
pub const MOST: usize = 63;

// Whether every block is listed once: each against those after it.
#[tactic(auto, using(crate::proofs::ScanLaws::once_stop, crate::proofs::ScanLaws::once_on, crate::proofs::ScanLaws::once_end))]
fn names_once(blocks: &[u32]) -> bool
    ensures { result ≡ names_once blocks.now }
{
    for j in 0..blocks.len() {
        if blocks[j + 1..].contains(&blocks[j]) {
            return false;
        }
    }
    true
}

// 15.
fn judge_scan(blocks: &[u32]) -> Result<(), Refusal>
    ensures { result ≡ unless (refuse_if (not (scan_test blocks.now)) BadScan None) tt }
{
    let n = blocks.len();
    if 0 < n && n <= MOST && names_once(blocks) {
        Ok(())
    } else {
        Err(Refusal::BadScan)
    }
}

// 15, then 18.
pub fn judge_call(blocks: &[u32], caller: u32) -> Result<(), Refusal>
    ensures { result ≡ unless (scan_then blocks.now caller None) tt }
{
    judge_scan(blocks)?;
    if IMPORT < caller {
        Err(Refusal::UnknownCaller)
    } else {
        Ok(())
    }
}

// The first listed block; of an empty list, which 15 refuses, block 0.
pub fn first_of(blocks: &[u32]) -> Block
    ensures { result ≡ first_block blocks.now }
{
    Block(blocks.first().copied().unwrap_or(0))
}
