//! The fetch stage.
ghost use Rattle.std.specs.Prelude.{◌≡◌, ◌+◌, ◌^◌, ◌<◌, map};
ghost use Rattle.sim_safe.specs.Observed.{SawCounts, SawWithoutMemory};
ghost use Rattle.core_parts.specs.Fits.{Fits};
ghost use Rattle.watched_stages.specs.Watched.{Shows, WatchedFetch, fetch_event};

use core_parts::Parts;
use core_statistics::CoreStats;
use core_watch::Watch;
use ooo_front::FetchRow;
use ooo_table::{Event, Mark};

/// The event of a row that was fetched at the cycle.
fn fetch_event(cycle: u64, fetched: &FetchRow) -> Event
    ensures { result ≡ fetch_event cycle fetched.now }
{
    Event {
        cycle,
        row: fetched.row,
        mark: Mark::Fetched {
            pc: fetched.pc,
            next: fetched.next,
            queued: fetched.queued,
        },
    }
}

/// Shows what was fetched at the cycle.
fn show_fetched<W: Watch>(rows: &[FetchRow], cycle: u64, watch: &mut W) -> Result<(), W::Fault>
    ensures took { Shows W.took W.cut (map (fetch_event cycle) rows.now) watch.old watch.new result }
    ensures count { SawCounts W.means (W.faults watch.old) (W.faults watch.new) result }
    ensures memory { W.takes_no_memory watch.old → SawWithoutMemory W.takes_no_memory W.means watch.new result }
{
    for fetched in rows {
        match watch.event(&fetch_event(cycle, fetched)) {
            Ok(()) => {}
            Err(fault) => return Err(fault),
        }
    }
    Ok(())
}

/// Fetches what the cycle fetches, counts and shows it, the first row first, and ends the cycle.
///
/// # Errors
/// The watch's fault. The cycle has ended and its rows are counted by then, and no row behind the one within which it was cut is shown.
pub fn fetch<W: Watch>(
    parts: &mut Parts,
    cycle: u64,
    stats: &mut CoreStats,
    watch: &mut W,
) -> Result<(), W::Fault>
    requires fits { Fits cycle 64 parts.old }
    requires more { cycle < 10 ^ 13 }
    ensures fits { Fits (cycle + 1) 0 parts.new }
    ensures fetches { WatchedFetch W.took W.cut cycle parts.old parts.new stats.old stats.new watch.old watch.new result }
    ensures count { SawCounts W.means (W.faults watch.old) (W.faults watch.new) result }
    ensures memory { W.takes_no_memory watch.old → SawWithoutMemory W.takes_no_memory W.means watch.new result }
{
    let fetched = core_fetch::fetch(parts, cycle);
    let rows = fetched.as_slice();
    stats.count_fetches(rows.len() as u64);
    show_fetched(rows, cycle, watch)
}
