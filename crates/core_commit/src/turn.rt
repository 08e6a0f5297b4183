//! The turn.
ghost use Rattle.std.specs.Prelude.{◌≡◌, ◌+◌, ◌≤◌, is_some};
ghost use Rattle.core_parts.specs.Fits.{Fits};
ghost use Rattle.core_parts.specs.Stages.{CommitsOne};
ghost use Rattle.core_commit.specs.Turn.{has_port, leaving, Turns};

use crate::effects::{leave_queue, refer, teach};
use core_parts::Parts;
use fu_pool::{Pool, Pools};
use ruu_core::Station;

/// Whether a row finds what it needs: a port where it is a store.
fn has_port(pools: &Pools, store: bool, cycle: u64) -> bool
    requires { pools.now.last ≤ cycle }
    ensures { result ≡ has_port store cycle pools.now }
{
    if store {
        pools.is_free(Pool::Port, cycle)
    } else {
        true
    }
}

/// Whether the oldest row commits.
#[tactic(auto, using(crate::proofs::Due::due_some, crate::proofs::Due::due_none))]
fn is_due(parts: &Parts, cycle: u64, commits: u32) -> bool
    requires { Fits cycle commits parts.now }
    ensures { result ≡ is_some (leaving cycle commits parts.now) }
{
    match parts.unit.head(cycle) {
        Some(s) => {
            let store = s.is_store();
            let port = has_port(&parts.pools, store, cycle);
            commits < parts.config.commit && port
        }
        None => false,
    }
}

/// The turn, over the parts.
#[tactic(auto, using(crate::proofs::Due::due_retires, crate::proofs::Due::due_leaves, crate::proofs::Due::none_due, crate::proofs::Due::due_port, crate::proofs::Due::due_queued))]
fn take_turn(parts: &mut Parts, cycle: u64, commits: u32) -> Option<Station>
    requires { Fits cycle commits parts.old }
    ensures { Turns cycle commits parts.old parts.new result }
{
    if !is_due(parts, cycle, commits) {
        return None;
    }
    let station = parts.unit.retire();
    leave_queue(&mut parts.queue, &mut parts.addresses, &station);
    refer(&mut parts.pools, &mut parts.hier, &station, cycle);
    teach(&mut parts.predictor, &station);
    Some(station)
}

/// Lets the oldest row commit in the cycle, and answers it. None exactly where no row commits any more, of
/// which so many have in this cycle; then all stays.
pub fn commit_one(parts: &mut Parts, cycle: u64, commits: u32) -> Option<Station>
    requires { Fits cycle commits parts.old }
    ensures fits { Fits cycle (commits + 1) parts.new }
    ensures turn { Turns cycle commits parts.old parts.new result }
    ensures stands { CommitsOne cycle commits parts.old parts.new result }
{
    take_turn(parts, cycle, commits)
}
