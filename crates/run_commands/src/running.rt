//! A run from its begin to its report.
ghost use Rattle.std.specs.Prelude.{◌≡◌, ◌≤◌, ◌^◌, [], unwrap_or};
ghost use Rattle.std.specs.Option.{option_copied};
ghost use Rattle.sim_safe.specs.State.{state_of};
ghost use Rattle.sim_safe.specs.Record.{IsRunTrace};
ghost use Rattle.sim_watch.specs.Watch.{WritesOrCut};
ghost use Rattle.cut_run.specs.Parts.{point_of_part};
ghost use Rattle.cut_run.specs.Comes.{asked_by};
ghost use Rattle.sim_opts.specs.Borrowed.{point_in, run_in};
ghost use Rattle.journal.specs.Outcome.{Ends};
ghost use Rattle.run_commands.specs.Outcome.{asked_of, point_file, start_of, starts_of, ran};
ghost use Rattle.run_commands.specs.Launching.{CanRun};
ghost use Rattle.run_commands.specs.Parts.{ran_behind};

use crate::judging::Program;
use answers::{Answer, refuse_long, report_run};
use cut_run::{CutAnswer, Plan, PointFile, cut_run};
use event_trace::Trace;
use journal::{Fault, Outside};
use sim_opts::SimSafe;
use sim_safe::Arch;
use std::alloc::Global;

/// Makes a file empty that may be named.
fn start_named<O: Outside>(outside: &mut O, file: Option<&str>) -> Result<(), Fault>
    ensures { WritesOrCut O.view outside.old (start_of (option_copied file.entry)) outside.new result }
{
    match file {
        Some(name) => outside.start(name),
        None => Ok(()),
    }
}

/// The file of the point of a plan.
fn point_file<'a>(plan: &Plan<'a>) -> Option<&'a str>
    ensures { option_copied result ≡ point_file (asked_by plan.now).point }
{
    match plan.point {
        Some(point) => Some(point.file),
        None => None,
    }
}

/// The name of that file, which is empty where there is none.
fn point_name<'a>(plan: &Plan<'a>) -> &'a str
    ensures { result.now ≡ unwrap_or (point_file (asked_by plan.now).point) [] }
{
    match plan.point {
        Some(point) => point.file,
        None => "",
    }
}

/// The point that a run leaves, if it leaves one.
fn point_of<'a>(point: Option<sim_opts::PointFile<'a>>) -> Option<PointFile<'a>>
    ensures { point_of_part result ≡ point_in point.entry }
{
    match point {
        Some(point) => Some(PointFile {
            file: point.file,
            at: point.at,
        }),
        None => None,
    }
}

/// What a request asks of its run.
fn plan_of<'a>(request: SimSafe<'a>) -> Plan<'a>
    ensures { asked_by result ≡ asked_of (run_in request.entry) }
{
    Plan {
        skip: request.skip,
        most: request.max_inst,
        commits: request.commits,
        point: point_of(request.point),
    }
}

/// Makes the files of a plan empty: that of the commit text, and then that of the point.
fn start_files<O: Outside>(outside: &mut O, plan: &Plan<'_>) -> Result<(), Fault>
    ensures { WritesOrCut O.view outside.old (starts_of (asked_by plan.now)) outside.new result }
{
    match start_named(outside, plan.commits) {
        Ok(()) => start_named(outside, point_file(plan)),
        Err(fault) => Err(fault),
    }
}

/// Does a run as a plan asks whose files are empty, and reports it.
fn run_planned<O: Outside>(
    alloc: Global,
    mut arch: Arch,
    trace: &Trace,
    plan: &Plan<'_>,
    outside: &mut O,
) -> Result<Answer, Fault>
    requires count { arch.icnt ≤ 10 ^ 15 }
    requires trace { IsRunTrace trace.now }
    ensures { Ends O.view outside.old (ran_behind trace.now (asked_by plan.now) (state_of arch)) outside.new result }
{
    match cut_run(alloc, &mut arch, trace, plan, outside) {
        Ok(CutAnswer::Whole(cut)) => {
            let (pc, icnt) = (arch.pc(), arch.icnt());
            report_run(
                alloc,
                cut.end,
                cut.skipped,
                &cut.statistics,
                pc,
                icnt,
                outside,
            )
        }
        Ok(CutAnswer::TooLong) => refuse_long(alloc, point_name(plan), outside),
        Err(fault) => Err(fault),
    }
}

/// Runs a program as a request asks, with the commit text and the point in files that are made empty
/// first, where they are named.
pub fn run_program<O: Outside>(
    alloc: Global,
    program: Program,
    request: SimSafe<'_>,
    outside: &mut O,
) -> Result<Answer, Fault>
    requires { CanRun program }
    ensures { Ends O.view outside.old (ran program.trace (asked_of (run_in request.entry)) (state_of program.arch)) outside.new result }
{
    let plan = plan_of(request);
    match start_files(outside, &plan) {
        Ok(()) => {}
        Err(fault) => return Err(fault),
    }
    run_planned(alloc, program.arch, &program.trace, &plan, outside)
}
