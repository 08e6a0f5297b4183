//! The row that recovers.
ghost use Rattle.std.specs.Prelude.{◌≡◌, true, not, ◌==◌, ◌&&◌};
ghost use Rattle.ruu_core.specs.Window.{is_above, is_at, is_live, passes};
ghost use Rattle.core_parts.specs.Fits.{Fits};
ghost use Rattle.core_parts.specs.Stages.{RecoversAt};
ghost use Rattle.core_recovery.specs.Recovery.{recovers, recovering_in};

use core_parts::Parts;
use ruu_core::{Ruu, Station};

/// Whether a mark is set to the cycle.
fn is_at(cycle: u64, mark: Option<u64>) -> bool
    ensures { result ≡ is_at cycle mark }
{
    match mark {
        Some(at) => at == cycle,
        None => false,
    }
}

/// Whether a row is right, and another instruction than the predicted one follows.
fn is_mispredicted(s: &Station) -> bool
    ensures { result ≡ (not s.now.wrong && not (s.now.predicted == s.now.actual)) }
{
    !s.wrong && s.predicted != s.actual
}

fn both(a: bool, b: bool) -> bool
    ensures { result ≡ (a && b) }
{
    a && b
}

/// Whether the row recovers at the cycle.
fn recovers(unit: &Ruu, row: u64, cycle: u64) -> bool
    requires { is_live row unit.now.rows ≡ true }
    ensures { result ≡ passes (recovers cycle) row unit.now.rows }
{
    let mispredicted = is_mispredicted(unit.station(row));
    let written = is_at(cycle, unit.written_at(row));
    both(mispredicted, written)
}

/// The least row that recovers at the cycle.
fn least_recovering(unit: &Ruu, cycle: u64) -> Option<u64>
    requires { is_above unit.now.past cycle ≡ true }
    ensures { result ≡ recovering_in cycle unit.now.rows }
{
    let _room = unit.room(); // says that the numbers of the live rows rise
    let mut after = None;
    while let Some(row) = unit.next_done(cycle, after) {
        if recovers(unit, row, cycle) {
            return Some(row);
        }
        after = Some(row);
    }
    None
}

/// The row that recovers in the cycle: it is right, it has its W there, and another instruction than
/// the predicted one follows. None exactly where no row does.
pub fn recovering(parts: &Parts, cycle: u64) -> Option<u64>
    requires { Fits cycle 32 parts.now }
    ensures row { result ≡ recovering_in cycle parts.now.unit.rows }
    ensures stands { RecoversAt cycle parts.now result }
{
    least_recovering(&parts.unit, cycle)
}
