//! The stage.
ghost use Rattle.std.specs.Prelude.{◌≡◌, true};
ghost use Rattle.ruu_core.specs.Window.{is_live};
ghost use Rattle.core_parts.specs.Fits.{Fits};
ghost use Rattle.core_parts.specs.Stages.{Recovers};
ghost use Rattle.core_recovery.specs.Recovery.{SquashesAny, SquashesAfter, Turns, recovering_in};

use crate::learn::learn;
use crate::row::recovering;
use core_parts::Parts;

/// Squashes all rows behind the row, and goes on fetching behind it.
#[tactic(auto, using(crate::proofs::Fitting::top_of))]
fn squash_after(parts: &mut Parts, cycle: u64, row: u64)
    requires fits { Fits cycle 32 parts.old }
    requires live { is_live row parts.old.unit.rows ≡ true }
    ensures { SquashesAfter cycle row parts.old parts.new }
{
    let station = parts.unit.station(row);
    let top = station.top;
    let actual = station.actual;
    let earliest = cycle + parts.config.penalty as u64;
    let _dropped = parts.unit.squash_after(row);
    parts.queue.squash_after(row);
    parts.addresses.squash_after(row);
    let _waited = parts.front.redirect(actual, earliest);
    parts.predictor.recover(top);
    parts.overlay.rollback();
    parts.wrong = false;
}

/// The recovery, if there is one, and the number of the row that recovers.
#[tactic(auto, using(crate::proofs::Least::recovering_live))]
fn squash(parts: &mut Parts, cycle: u64) -> Option<u64>
    requires { Fits cycle 32 parts.old }
    ensures row { result ≡ recovering_in cycle parts.old.unit.rows }
    ensures fits { Fits cycle 32 parts.new }
    ensures squashes { SquashesAny cycle (recovering_in cycle parts.old.unit.rows) parts.old parts.new }
{
    let _room = parts.unit.room(); // says that the numbers of the live rows rise
    match recovering(parts, cycle) {
        Some(row) => {
            squash_after(parts, cycle, row);
            Some(row)
        }
        None => None,
    }
}

/// Does the recovery of the cycle, if there is one, and notes what is known of stores by the cycle. The number of
/// the row that recovers, or None where no row does.
pub fn recover(parts: &mut Parts, cycle: u64) -> Option<u64>
    requires { Fits cycle 32 parts.old }
    ensures row { result ≡ recovering_in cycle parts.old.unit.rows }
    ensures fits { Fits cycle 32 parts.new }
    ensures turn { Turns cycle parts.old parts.new }
    ensures stands { Recovers cycle parts.old parts.new }
{
    let recovered = squash(parts, cycle);
    learn(&mut parts.queue, &parts.unit, &parts.addresses, cycle);
    recovered
}
