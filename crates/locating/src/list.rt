// Judging a list: 16, and then 7 of its blocks.
ghost use Rattle.std.specs.Prelude.{◌≡◌, None};
ghost use Rattle.protocol.specs.Kinds.{highest};
ghost use Rattle.judging.specs.Judging.{list_then, unless};

use protocol::Refusal;

// The highest listed block.
fn highest(blocks: &[u32]) -> u32
    ensures { result ≡ highest blocks.now }
{
    let mut most: u32 = 0;
    for b in blocks {
        most = most.max(*b);
    }
    most
}

// 16, then 7: `room` is the length of the answer list, `limit` the number of blocks.
pub fn judge_list(blocks: &[u32], room: usize, limit: u32) -> Result<(), Refusal>
    ensures { result ≡ unless (list_then blocks.now room limit None) tt }
{
    let n = blocks.len();
    if n == 0 || 64 < n || n != room {
        Err(Refusal::BadList)
    } else if limit <= highest(blocks) {
        Err(Refusal::BlockTooHigh)
    } else {
        Ok(())
    }
}
