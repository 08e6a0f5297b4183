//! The part of a run that is skipped, cut where a point is taken in it.
ghost use Rattle.std.specs.Prelude.{◌+◌, ◌≤◌, ◌^◌, Some};
ghost use Rattle.sim_safe.specs.State.{state_of};
ghost use Rattle.sim_safe.specs.Record.{IsRunTrace};
ghost use Rattle.sim_watch.specs.Watch.{WritesOrCut};
ghost use Rattle.cut_run.specs.Parts.{point_of_part, skipped_writes, SkippedComes, CutsWithin};

use crate::cut::PointFile;
use crate::point::put_point;
use event_trace::Trace;
use journal::{Fault, Outside};
use sim_safe::{Arch, runs_go_on, steps_keep};
use sim_watch::{Skipped, watched_skip};
use std::alloc::Global;

/// Skips up to `k` steps, takes a point, and skips up to `n - k` further ones. `None` where the point has
/// too many pages: then the run ends there.
fn skip_round<O: Outside>(
    alloc: Global,
    arch: &mut Arch,
    trace: &Trace,
    n: u64,
    point: PointFile<'_>,
    outside: &mut O,
) -> Result<Option<Skipped>, Fault>
    requires count { arch.old.icnt + n ≤ 10 ^ 15 }
    requires trace { IsRunTrace trace.now }
    requires within { point.at ≤ n }
    ensures writes { WritesOrCut O.view outside.old (skipped_writes trace.now n (state_of arch.old) (point_of_part (Some point.entry))) outside.new result }
    ensures comes { SkippedComes trace.now n (state_of arch.old) (state_of arch.new) (point_of_part (Some point.entry)) result }
{
    steps_keep();
    runs_go_on();
    let first = match watched_skip(arch, trace, point.at, outside) {
        Ok(first) => first,
        Err(fault) => return Err(fault),
    };
    match put_point(alloc, arch, point.file, outside) {
        Ok(true) => {}
        Ok(false) => return Ok(None),
        Err(fault) => return Err(fault),
    }
    let left = n - point.at;
    let rest = match watched_skip(arch, trace, left, outside) {
        Ok(rest) => rest,
        Err(fault) => return Err(fault),
    };
    let done = first.done + rest.done;
    let end = if left == 0 { first.end } else { rest.end };
    Ok(Some(Skipped { done, end }))
}

/// Skips up to `n` steps, with a point on the way if one is taken there. `None` where it has too many
/// pages: then the run ends there.
pub fn skip_part<O: Outside>(
    alloc: Global,
    arch: &mut Arch,
    trace: &Trace,
    n: u64,
    point: Option<PointFile<'_>>,
    outside: &mut O,
) -> Result<Option<Skipped>, Fault>
    requires count { arch.old.icnt + n ≤ 10 ^ 15 }
    requires trace { IsRunTrace trace.now }
    requires within { CutsWithin n (point_of_part point) }
    ensures writes { WritesOrCut O.view outside.old (skipped_writes trace.now n (state_of arch.old) (point_of_part point.entry)) outside.new result }
    ensures comes { SkippedComes trace.now n (state_of arch.old) (state_of arch.new) (point_of_part point.entry) result }
{
    if let Some(point) = point {
        return skip_round(alloc, arch, trace, n, point, outside);
    }
    match watched_skip(arch, trace, n, outside) {
        Ok(skipped) => Ok(Some(skipped)),
        Err(fault) => Err(fault),
    }
}
