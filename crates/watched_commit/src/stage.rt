//! The stage.
ghost use Rattle.sim_safe.specs.Record.{IsRunTrace};
ghost use Rattle.core_parts.specs.Fits.{Fits};
ghost use Rattle.watched_commit.specs.Stage.{CommitsRows, Watched};

use crate::row::{end_with, show_row};
use core_parts::Parts;
use core_statistics::CoreStats;
use core_watch::Watch;
use event_trace::Trace;

/// How a commit stage ended.
#[derive(Clone, Copy, Debug, PartialEq, Eq)]
pub enum Committed {
    /// No row commits any more in the cycle; so many have.
    All(u32),
    /// The last commit of the budget came, and was no exit.
    Spent,
    /// An exit with this code committed.
    Exited(u32),
}

/// Lets the rows commit that commit in the cycle, `most` of them at most, counts and shows each. It ends at the
/// first exit and at the `most`-th commit. After a fault the watch was cut within the row that had committed last.
pub fn commit_rows<W: Watch>(
    parts: &mut Parts,
    trace: &Trace,
    cycle: u64,
    most: u64,
    stats: &mut CoreStats,
    watch: &mut W,
) -> Result<Committed, W::Fault>
    requires fits { Fits cycle 0 parts.old }
    requires trace { IsRunTrace trace.now }
    ensures fits { Fits cycle 32 parts.new }
    ensures rows { CommitsRows cycle most parts.old parts.new stats.old stats.new result }
    ensures watch { Watched W.took W.cut W.faults W.means W.takes_no_memory trace.now cycle most parts.old watch.old watch.new result }
{
    let width = parts.config.commit;
    for commits in 0..width {
        let Some(station) = core_commit::commit_one(parts, cycle, commits) else {
            return Ok(Committed::All(commits));
        };
        stats.count_commit(&station);
        if let Err(fault) = show_row(&station, trace, cycle, watch) {
            return Err(fault);
        }
        if let Some(end) = end_with(&station, commits + 1, most) {
            return Ok(end);
        }
    }
    Ok(Committed::All(width))
}
