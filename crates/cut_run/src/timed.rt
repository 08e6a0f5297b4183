//! The part of a run that is timed, cut where a point is taken in it.
ghost use Rattle.std.specs.Prelude.{◌≡◌, ◌+◌, ◌≤◌, ◌^◌, Some};
ghost use Rattle.std.specs.Option.{option_copied};
ghost use Rattle.sim_safe.specs.State.{state_of};
ghost use Rattle.sim_safe.specs.Record.{IsRunTrace};
ghost use Rattle.sim_safe.specs.Statistics.{IsCountable};
ghost use Rattle.sim_watch.specs.Watch.{WritesOrCut};
ghost use Rattle.cut_run.specs.Parts.{point_of_part, timed_writes, TimedComes, CutsWithin, joined};

use crate::cut::PointFile;
use crate::point::put_point;
use event_trace::Trace;
use journal::{Fault, Outside};
use sim_safe::{Arch, Statistics, runs_go_on, steps_keep};
use sim_watch::{Watched, watched_run};
use std::alloc::Global;

/// What was counted in two runs.
fn joined(first: &Statistics, rest: &Statistics) -> Statistics
    requires { IsCountable first.now × IsCountable rest.now }
    ensures { result ≡ joined first.now rest.now }
{
    Statistics {
        insn: first.insn + rest.insn,
        loads: first.loads + rest.loads,
        stores: first.stores + rest.stores,
        branches: first.branches + rest.branches,
        calls: first.calls + rest.calls,
    }
}

/// Does up to `k` steps, takes a point, and does up to `n - k` further ones. `None` where the point has
/// too many pages: then the run ends there.
fn time_round<O: Outside>(
    alloc: Global,
    arch: &mut Arch,
    trace: &Trace,
    n: u64,
    commits: Option<&str>,
    point: PointFile<'_>,
    outside: &mut O,
) -> Result<Option<Watched>, Fault>
    requires count { arch.old.icnt + n ≤ 10 ^ 15 }
    requires trace { IsRunTrace trace.now }
    requires within { point.at ≤ n }
    ensures writes { WritesOrCut O.view outside.old (timed_writes trace.now (option_copied commits.entry) n (state_of arch.old) (point_of_part (Some point.entry))) outside.new result }
    ensures comes { TimedComes trace.now n (state_of arch.old) (state_of arch.new) (point_of_part (Some point.entry)) result }
{
    steps_keep();
    runs_go_on();
    let first = match watched_run(alloc, arch, trace, point.at, commits, outside) {
        Ok(first) => first,
        Err(fault) => return Err(fault),
    };
    match put_point(alloc, arch, point.file, outside) {
        Ok(true) => {}
        Ok(false) => return Ok(None),
        Err(fault) => return Err(fault),
    }
    let left = n - point.at;
    let rest = match watched_run(alloc, arch, trace, left, commits, outside) {
        Ok(rest) => rest,
        Err(fault) => return Err(fault),
    };
    let statistics = joined(&first.statistics, &rest.statistics);
    let end = if left == 0 { first.end } else { rest.end };
    Ok(Some(Watched { end, statistics }))
}

/// Does up to `n` steps whose commit text and output are written, with a point on the way if one is taken
/// there. `None` where it has too many pages: then the run ends there.
pub fn timed_part<O: Outside>(
    alloc: Global,
    arch: &mut Arch,
    trace: &Trace,
    n: u64,
    commits: Option<&str>,
    point: Option<PointFile<'_>>,
    outside: &mut O,
) -> Result<Option<Watched>, Fault>
    requires count { arch.old.icnt + n ≤ 10 ^ 15 }
    requires trace { IsRunTrace trace.now }
    requires within { CutsWithin n (point_of_part point) }
    ensures writes { WritesOrCut O.view outside.old (timed_writes trace.now (option_copied commits.entry) n (state_of arch.old) (point_of_part point.entry)) outside.new result }
    ensures comes { TimedComes trace.now n (state_of arch.old) (state_of arch.new) (point_of_part point.entry) result }
{
    if let Some(point) = point {
        return time_round(alloc, arch, trace, n, commits, point, outside);
    }
    match watched_run(alloc, arch, trace, n, commits, outside) {
        Ok(watched) => Ok(Some(watched)),
        Err(fault) => Err(fault),
    }
}
