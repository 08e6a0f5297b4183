//! What is asked of a run that is cut, and the run.
ghost use Rattle.std.specs.Prelude.{◌≡◌, ◌≤◌, ◌^◌, ◌-◌, ◌&&◌, ◌||◌, min, nat_lt, nat_le, is_some, if◌then◌else◌};
ghost use Rattle.sim_safe.specs.State.{state_of};
ghost use Rattle.sim_safe.specs.Record.{IsRunTrace};
ghost use Rattle.sim_watch.specs.Watch.{WritesOrCut};
ghost use Rattle.cut_run.specs.Parts.{point_of_part};
ghost use Rattle.cut_run.specs.Plan.{limited, filtered, cut_journal};
ghost use Rattle.cut_run.specs.Comes.{CutComes, asked_by};

use crate::skipped::skip_part;
use crate::timed::timed_part;
use event_trace::Trace;
use journal::{Fault, Outside};
use sim_safe::{Arch, RunEnd, Statistics, runs_go_on, steps_keep};
use std::alloc::Global;

/// Where a point goes, and when it is taken.
#[derive(Clone, Copy, Debug, PartialEq, Eq)]
pub struct PointFile<'a> {
    /// The file's name.
    pub file: &'a str,
    /// Once so many instructions are done, those that are skipped among them.
    pub at: u64,
}

/// What is asked of a run.
#[derive(Clone, Copy, Debug, PartialEq, Eq)]
pub struct Plan<'a> {
    /// How many steps are skipped first.
    pub skip: u64,
    /// At most so many are done behind them.
    pub most: u64,
    /// The file of their commit text. Without one there is none.
    pub commits: Option<&'a str>,
    /// The point that is taken, if one is.
    pub point: Option<PointFile<'a>>,
}

/// What a run came to.
#[derive(Clone, Copy, Debug, PartialEq, Eq)]
pub struct Cut {
    /// How many steps were skipped.
    pub skipped: u64,
    /// How many instructions of each sort were done behind them.
    pub statistics: Statistics,
    /// How it ended.
    pub end: RunEnd,
}

/// Whether a run was done whole.
#[derive(Clone, Copy, Debug, PartialEq, Eq)]
pub enum CutAnswer {
    /// It was.
    Whole(Cut),
    /// It ended where its point has too many pages.
    TooLong,
}

/// A run ends where so many instructions are done.
const MOST_INSTRUCTIONS: u64 = 1_000_000_000_000_000;

/// The most steps that a run of up to `n` does.
fn limited(arch: &Arch, n: u64) -> u64
    ensures { result ≡ limited (state_of arch.now) n }
{
    n.min(MOST_INSTRUCTIONS.saturating_sub(arch.icnt()))
}

/// Whether a run ends in the part that is skipped: fewer steps were done than were to be, or the program
/// has exited behind them.
fn ends_early(arch: &Arch, to_skip: u64, done: u64) -> bool
    ensures { result ≡ (nat_lt 0 to_skip && (nat_lt done to_skip || is_some arch.now.ended)) }
{
    to_skip > 0 && (done < to_skip || arch.ended().is_some())
}

/// The most steps of the timed part.
fn left_to_do(arch: &Arch, is_over: bool, most: u64) -> u64
    ensures { result ≡ (if is_over then 0 else limited (state_of arch.now) most) }
{
    if is_over { 0 } else { limited(arch, most) }
}

/// The point that is taken in the part that is skipped, if it is taken there.
fn skipped_point<'a>(point: Option<PointFile<'a>>, to_skip: u64) -> Option<PointFile<'a>>
    ensures { point_of_part result ≡ filtered (λ at. nat_le at to_skip) (λ at. at) (point_of_part point.entry) }
{
    match point {
        Some(point) if point.at <= to_skip => Some(point),
        Some(_) | None => None,
    }
}

/// The point that is taken in the timed part, if it is taken there.
fn timed_point<'a>(point: Option<PointFile<'a>>, to_skip: u64, to_do: u64) -> Option<PointFile<'a>>
    ensures { point_of_part result ≡ filtered (λ at. nat_lt to_skip at) (λ at. min (at - to_skip) to_do) (point_of_part point.entry) }
{
    match point {
        Some(PointFile { file, at }) if to_skip < at => Some(PointFile {
            file,
            at: (at - to_skip).min(to_do),
        }),
        Some(_) | None => None,
    }
}

/// Does a run as a plan asks. The files of the plan get what is written behind what they hold.
///
/// # Errors
/// A fault of the files or streams, or want of memory. Some of the steps were done then, and nothing
/// behind the write that failed.
pub fn cut_run<O: Outside>(
    alloc: Global,
    arch: &mut Arch,
    trace: &Trace,
    plan: &Plan<'_>,
    outside: &mut O,
) -> Result<CutAnswer, Fault>
    requires count { arch.old.icnt ≤ 10 ^ 15 }
    requires trace { IsRunTrace trace.now }
    ensures writes { WritesOrCut O.view outside.old (cut_journal trace.now (state_of arch.old) (asked_by plan.now)) outside.new result }
    ensures comes { CutComes trace.now (state_of arch.old) (asked_by plan.now) (state_of arch.new) result }
{
    steps_keep();
    runs_go_on();
    let to_skip = limited(arch, plan.skip);
    let point = skipped_point(plan.point, to_skip);
    let skipped = match skip_part(alloc, arch, trace, to_skip, point, outside) {
        Ok(Some(skipped)) => skipped,
        Ok(None) => return Ok(CutAnswer::TooLong),
        Err(fault) => return Err(fault),
    };
    let is_over = ends_early(arch, to_skip, skipped.done);
    let to_do = left_to_do(arch, is_over, plan.most);
    let point = timed_point(plan.point, to_skip, to_do);
    match timed_part(alloc, arch, trace, to_do, plan.commits, point, outside) {
        Ok(Some(watched)) => Ok(CutAnswer::Whole(Cut {
            skipped: skipped.done,
            statistics: watched.statistics,
            end: if is_over { skipped.end } else { watched.end },
        })),
        Ok(None) => Ok(CutAnswer::TooLong),
        Err(fault) => Err(fault),
    }
}
