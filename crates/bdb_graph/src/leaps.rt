ghost use Rattle.std.specs.Prelude.{◌≡◌, ◌<◌, ◌≤◌, ◌+◌, ℕ, Bool, IfOk, length};
ghost use Rattle.std.specs.List.{range_with_len};
ghost use Rattle.bdb_graph.specs.Leaps.{AllFull, AreLeaps, AreOver};

use std::alloc::{AllocError, Global};

/// No leap yet: each page, and the end behind them, leads to itself. An error means that memory ran out.
#[tactic(auto, using(crate::proofs::Below::range_more))]
pub fn no_leaps(alloc: Global, len: u32) -> Result<Vec<u32>, AllocError>
    ensures { IfOk result (λ leaps. leaps.items ≡ range_with_len 0 len) }
{
    let mut leaps = Vec::with_capacity(alloc, len as usize)?;
    for page in 0..len {
        leaps.push(page)?;
    }
    Ok(leaps)
}

/// The first page from one on over which no leap goes, or the end. The leaps on the way are made longer, so that many
/// walks over the same pages take few steps.
pub fn first_open(leaps: &mut [u32], from: u32) -> u32
    requires leaps { AreLeaps leaps.old }
    requires from { from < length leaps.old }
    ensures leaps { AreLeaps leaps.new }
    ensures on { from ≤ result }
    ensures within { result < length leaps.new }
    ensures over { (full : ℕ → Bool) → AreOver full leaps.old → AreOver full leaps.new }
    ensures full { (full : ℕ → Bool) → AreOver full leaps.old → AllFull full from result }
{
    let mut at = from;
    while leaps[at as usize] > at {
        let after = leaps[leaps[at as usize] as usize];
        leaps[at as usize] = after;
        at = after;
    }
    at
}
