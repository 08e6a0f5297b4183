//! The launch of a program: its files are loaded and judged, and its machine stands where the run
//! begins.
ghost use Rattle.std.specs.Prelude.{◌≡◌, [], map, string_bytes};
ghost use Rattle.std.specs.Option.{option_copied};
ghost use Rattle.sim_opts.specs.Request.{StartsRun};
ghost use Rattle.sim_opts.specs.Borrowed.{run_in};
ghost use Rattle.run_commands.specs.Program.{point_limit, trace_limit, named_input};
ghost use Rattle.run_commands.specs.Launching.{Launches, LaunchesBy, LoadedProgram, BesideProgram, ObjectProgram, IsReady, refused_launch};

use crate::judging::{Program, judge_program};
use answers::{Answer, refuse, refuse_long};
use journal::{Fault, Found, Outside, find_file};
use sim_opts::SimSafe;
use ss_base::Bytes;
use std::alloc::Global;

/// The longest object, in bytes.
pub const OBJECT_LIMIT: u64 = 16_777_216;

/// The longest point, in bytes.
const POINT_LIMIT: u64 = 272_629_760;

/// The longest trace, in bytes.
const TRACE_LIMIT: u64 = 67_108_864;

/// What came of the files of a program.
#[derive(Drop)]
pub enum Launched {
    /// They stand for this program, and nothing is written yet.
    Ready(Program),
    /// One of them was refused with this answer, and its line is written.
    Refused(Answer),
}

/// What came of files of which one was refused.
fn refused(written: Result<Answer, Fault>) -> Result<Launched, Fault>
    ensures { result ≡ refused_launch written }
{
    match written {
        Ok(answer) => Ok(Launched::Refused(answer)),
        Err(fault) => Err(fault),
    }
}

/// Judges loaded files.
fn launch_loaded<O: Outside>(
    alloc: Global,
    object: Bytes,
    point: Option<Bytes>,
    calls: Option<Bytes>,
    request: SimSafe<'_>,
    outside: &mut O,
) -> Result<Launched, Fault>
    requires { StartsRun point (map string_bytes request.args.now) }
    ensures launches { LaunchesBy O.view outside.old [] (λ _. LoadedProgram object point calls (map string_bytes request.entry.args.now)) outside.new result }
    ensures ready { IsReady result }
{
    match judge_program(alloc, object, point, calls, request.args) {
        Ok(program) => Ok(Launched::Ready(program)),
        Err(refusal) => refused(refuse(alloc, refusal, outside)),
    }
}

/// Loads the trace of a run, if one is named.
fn launch_beside<O: Outside>(
    alloc: Global,
    object: Bytes,
    point: Option<Bytes>,
    request: SimSafe<'_>,
    outside: &mut O,
) -> Result<Launched, Fault>
    requires { StartsRun point (map string_bytes request.args.now) }
    ensures launches { LaunchesBy O.view outside.old (named_input trace_limit (option_copied request.entry.trace) []) (BesideProgram (run_in request.entry) object point) outside.new result }
    ensures ready { IsReady result }
{
    let Some(name) = request.trace else {
        return launch_loaded(alloc, object, point, None, request, outside);
    };
    match find_file(alloc, name, TRACE_LIMIT, outside) {
        Ok(Found::Whole(calls)) => launch_loaded(
            alloc,
            object,
            point,
            Some(calls),
            request,
            outside,
        ),
        Ok(Found::TooLong) => refused(refuse_long(alloc, name, outside)),
        Err(fault) => Err(fault),
    }
}

/// Loads the point that a run begins with, if one is named.
fn launch_object<O: Outside>(
    alloc: Global,
    object: Bytes,
    request: SimSafe<'_>,
    outside: &mut O,
) -> Result<Launched, Fault>
    requires { StartsRun (option_copied request.restart) (map string_bytes request.args.now) }
    ensures launches { LaunchesBy O.view outside.old (named_input point_limit (option_copied request.entry.restart) (named_input trace_limit (option_copied request.entry.trace) [])) (ObjectProgram (run_in request.entry) object) outside.new result }
    ensures ready { IsReady result }
{
    let Some(file) = request.restart else {
        return launch_beside(alloc, object, None, request, outside);
    };
    match find_file(alloc, file, POINT_LIMIT, outside) {
        Ok(Found::Whole(point)) => launch_beside(alloc, object, Some(point), request, outside),
        Ok(Found::TooLong) => refused(refuse_long(alloc, file, outside)),
        Err(fault) => Err(fault),
    }
}

/// Loads and judges the files of a run that starts anew with arguments whose start block fits, or
/// starts from a point. Of a program that is ready nothing is written; a refusal writes its line.
///
/// # Errors
/// A fault of the files or of the second stream, or want of memory.
pub fn launch<O: Outside>(
    alloc: Global,
    request: SimSafe<'_>,
    outside: &mut O,
) -> Result<Launched, Fault>
    requires { StartsRun (option_copied request.restart) (map string_bytes request.args.now) }
    ensures launches { Launches O.view outside.old (run_in request.entry) outside.new result }
    ensures ready { IsReady result }
{
    match find_file(alloc, request.object, OBJECT_LIMIT, outside) {
        Ok(Found::Whole(object)) => launch_object(alloc, object, request, outside),
        Ok(Found::TooLong) => refused(refuse_long(alloc, request.object, outside)),
        Err(fault) => Err(fault),
    }
}
