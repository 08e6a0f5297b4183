//! The recovery stage.
ghost use Rattle.std.specs.Prelude.{◌≡◌, ℕ, ◌+◌, ◌-◌, ◌<◌, true, map, Option, Some, None};
ghost use Rattle.std.specs.List.{range_with_len};
ghost use Rattle.sim_safe.specs.Observed.{SawCounts, SawWithoutMemory};
ghost use Rattle.ruu_core.specs.Window.{is_above, is_live, written_of};
ghost use Rattle.core_parts.specs.Fits.{Fits};
ghost use Rattle.watched_stages.specs.Watched.{Shows, WatchedRecovery, completion_mark, completions_above};
ghost use Rattle.core_events.specs.Recoveries.{squash_event, squashes_behind};
ghost use Rattle.core_statistics.specs.StageCounts.{with_recovery_of};

use core_parts::Parts;
use core_statistics::CoreStats;
use core_watch::Watch;
use ooo_table::{Event, Mark};
use ruu_core::Ruu;

/// What a row with this W does that completes at the cycle.
fn completion_mark(cycle: u64, written: Option<u64>) -> Mark
    ensures { result ≡ completion_mark cycle written }
{
    match written {
        Some(at) => {
            if at == cycle {
                Mark::Written
            } else {
                Mark::Returned
            }
        }
        None => Mark::Returned,
    }
}

/// The event of a row that completes at the cycle.
fn completion_event(unit: &Ruu, cycle: u64, row: u64) -> Event
    requires { is_live row unit.now.rows ≡ true }
    ensures { result ≡ record { cycle = cycle; row = row; mark = completion_mark cycle (written_of row unit.now.rows) } }
{
    Event {
        cycle,
        row,
        mark: completion_mark(cycle, unit.written_at(row)),
    }
}

/// Shows the write-backs and returns of the cycle.
fn show_completions<W: Watch>(unit: &Ruu, cycle: u64, watch: &mut W) -> Result<(), W::Fault>
    requires { is_above unit.now.past cycle ≡ true }
    ensures took { Shows W.took W.cut (completions_above cycle None unit.now.rows) watch.old watch.new result }
    ensures count { SawCounts W.means (W.faults watch.old) (W.faults watch.new) result }
    ensures memory { W.takes_no_memory watch.old → SawWithoutMemory W.takes_no_memory W.means watch.new result }
{
    let _room = unit.room(); // says that the numbers of the live rows rise
    let mut after = None;
    while let Some(row) = unit.next_done(cycle, after) {
        match watch.event(&completion_event(unit, cycle, row)) {
            Ok(()) => after = Some(row),
            Err(fault) => return Err(fault),
        }
    }
    Ok(())
}

/// Shows that these rows are squashed at the cycle.
fn show_rows<W: Watch>(first: u64, next: u64, cycle: u64, watch: &mut W) -> Result<(), W::Fault>
    ensures took { Shows W.took W.cut (map (squash_event cycle) (range_with_len first (next - first))) watch.old watch.new result }
    ensures count { SawCounts W.means (W.faults watch.old) (W.faults watch.new) result }
    ensures memory { W.takes_no_memory watch.old → SawWithoutMemory W.takes_no_memory W.means watch.new result }
{
    for row in first..next {
        let squashed = Event {
            cycle,
            row,
            mark: Mark::Squashed,
        };
        match watch.event(&squashed) {
            Ok(()) => {}
            Err(fault) => return Err(fault),
        }
    }
    Ok(())
}

/// Shows the squashes behind the row that recovers, if one does.
fn show_squashes<W: Watch>(
    behind: Option<u64>,
    next: u64,
    cycle: u64,
    watch: &mut W,
) -> Result<(), W::Fault>
    requires { (row : ℕ) → behind ≡ Some row → row < next }
    ensures took { Shows W.took W.cut (squashes_behind cycle behind next) watch.old watch.new result }
    ensures count { SawCounts W.means (W.faults watch.old) (W.faults watch.new) result }
    ensures memory { W.takes_no_memory watch.old → SawWithoutMemory W.takes_no_memory W.means watch.new result }
{
    match behind {
        Some(row) => show_rows(row + 1, next, cycle, watch),
        None => Ok(()),
    }
}

/// Counts the recovery behind a row, by which all rows up to the next one that is fetched are squashed, if one recovers.
fn count_recovery(behind: Option<u64>, next: u64, stats: &mut CoreStats)
    requires { (row : ℕ) → behind ≡ Some row → row < next }
    ensures { stats.new ≡ with_recovery_of behind next stats.old }
{
    if let Some(row) = behind {
        stats.count_recovery(next - (row + 1));
    }
}

/// Shows the write-backs and returns of the cycle, does its recovery, if there is one, counts it, and shows which rows
/// that squashes, the oldest first.
///
/// # Errors
/// The watch's fault. The recovery is done and counted by then, and no event behind the one within which it was cut is shown.
pub fn recover<W: Watch>(
    parts: &mut Parts,
    cycle: u64,
    stats: &mut CoreStats,
    watch: &mut W,
) -> Result<(), W::Fault>
    requires { Fits cycle 32 parts.old }
    ensures fits { Fits cycle 32 parts.new }
    ensures recovers { WatchedRecovery W.took W.cut cycle parts.old parts.new stats.old stats.new watch.old watch.new result }
    ensures count { SawCounts W.means (W.faults watch.old) (W.faults watch.new) result }
    ensures memory { W.takes_no_memory watch.old → SawWithoutMemory W.takes_no_memory W.means watch.new result }
{
    let _room = parts.unit.room(); // says that the numbers of the live rows rise
    let next = parts.front.next_number();
    match show_completions(&parts.unit, cycle, watch) {
        Ok(()) => {
            let behind = core_recovery::recover(parts, cycle);
            count_recovery(behind, next, stats);
            show_squashes(behind, next, cycle, watch)
        }
        Err(fault) => {
            let behind = core_recovery::recover(parts, cycle);
            count_recovery(behind, next, stats);
            Err(fault)
        }
    }
}
