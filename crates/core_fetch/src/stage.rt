//! The stage.
ghost use Rattle.std.specs.Prelude.{◌+◌, ◌^◌, ◌<◌};
ghost use Rattle.core_parts.specs.Fits.{Fits};
ghost use Rattle.core_parts.specs.Stages.{Fetches};

use arrayvec::ArrayVec;
use core_parts::Parts;
use ooo_front::FetchRow;

/// Fetches what the cycle fetches, answers it, the first row first, and ends the cycle.
pub fn fetch(parts: &mut Parts, cycle: u64) -> ArrayVec<FetchRow, 32>
    requires fits { Fits cycle 64 parts.old }
    requires more { cycle < 10 ^ 13 }
    ensures fits { Fits (cycle + 1) 0 parts.new }
    ensures stands { Fetches cycle parts.old parts.new result.items }
{
    let text = parts.arch.text();
    parts
        .front
        .fetch_cycle(cycle, text, &mut parts.hier, &mut parts.predictor)
}
