//! The issue stage.
ghost use Rattle.std.specs.Prelude.{◌≡◌, ◌+◌, ◌≤◌, length, map};
ghost use Rattle.sim_safe.specs.Observed.{SawCounts, SawWithoutMemory};
ghost use Rattle.core_parts.specs.Fits.{Fits};
ghost use Rattle.watched_stages.specs.Watched.{Shows, WatchedIssue, issue_event};

use core_parts::{Issued, Parts};
use core_statistics::CoreStats;
use core_watch::Watch;
use ooo_table::{Event, Mark};

/// The event of an operation that issued at the cycle.
fn issue_event(cycle: u64, done: &Issued) -> Event
    ensures { result ≡ issue_event cycle done.now }
{
    match done {
        Issued::Main(row) => Event {
            cycle,
            row: *row,
            mark: Mark::Issued,
        },
        Issued::Access(row, _forwarded) => Event {
            cycle,
            row: *row,
            mark: Mark::Accessed,
        },
    }
}

/// Shows what issued at the cycle.
fn show_issued<W: Watch>(issued: &[Issued], cycle: u64, watch: &mut W) -> Result<(), W::Fault>
    ensures took { Shows W.took W.cut (map (issue_event cycle) issued.now) watch.old watch.new result }
    ensures count { SawCounts W.means (W.faults watch.old) (W.faults watch.new) result }
    ensures memory { W.takes_no_memory watch.old → SawWithoutMemory W.takes_no_memory W.means watch.new result }
{
    for done in issued {
        match watch.event(&issue_event(cycle, done)) {
            Ok(()) => {}
            Err(fault) => return Err(fault),
        }
    }
    Ok(())
}

/// Has the live rows issue at the cycle, counts what issued, and shows it, the oldest row first.
///
/// # Errors
/// The watch's fault. All issues are done and counted by then, and none behind the one within which it was cut is shown.
pub fn issue<W: Watch>(
    parts: &mut Parts,
    cycle: u64,
    stats: &mut CoreStats,
    watch: &mut W,
) -> Result<(), W::Fault>
    requires { Fits cycle 32 parts.old }
    ensures fits { Fits cycle 64 parts.new }
    ensures issues { WatchedIssue W.took W.cut cycle parts.old parts.new stats.old stats.new watch.old watch.new result }
    ensures count { SawCounts W.means (W.faults watch.old) (W.faults watch.new) result }
    ensures memory { W.takes_no_memory watch.old → SawWithoutMemory W.takes_no_memory W.means watch.new result }
{
    let issued = core_issue::issue(parts, cycle);
    let rows = issued.as_slice();
    stats.count_issues(rows);
    show_issued(rows, cycle, watch)
}
