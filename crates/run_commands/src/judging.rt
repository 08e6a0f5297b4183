//! What loaded files stand for: the program that is run, or why there is none.
ghost use Rattle.std.specs.Prelude.{◌≡◌, IfOk, map, string_bytes};
ghost use Rattle.ecoff_load.specs.Object.{IsImage};
ghost use Rattle.sim_safe.specs.State.{state_of};
ghost use Rattle.sim_safe.specs.Record.{IsRunTrace};
ghost use Rattle.sim_opts.specs.Request.{StartsRun};
ghost use Rattle.answers.specs.Judging.{Judges, JudgesStart, JudgesGiven, IsStart, IsGiven};
ghost use Rattle.run_commands.specs.Launching.{JudgesProgram, CanRun, WithinCount};

use answers::{Refusal, judge_object, judge_point, judge_trace};
use ecoff_load::{Image, StartFault};
use event_trace::Trace;
use sim_safe::Arch;
use ss_base::Bytes;
use std::alloc::Global;

/// A program that is ready to run.
#[derive(Drop)]
pub struct Program {
    /// Its machine, as the run begins.
    pub arch: Arch,
    /// Its recorded calls.
    pub trace: Trace,
}

/// The machine at a program's start, or that of a point of it.
fn judge_start(
    alloc: Global,
    point: Option<Bytes>,
    image: Image,
    args: &[String],
) -> Result<Arch, Refusal>
    requires image { IsImage image }
    requires starts { StartsRun point (map string_bytes args.now) }
    ensures judged { Judges result (λ a. IsStart point image (map string_bytes args.now) (state_of a)) (λ o. JudgesStart point image (map string_bytes args.now) o (λ _. ⊥)) }
    ensures count { IfOk result WithinCount }
{
    if let Some(bytes) = point {
        return judge_point(alloc, bytes, image);
    }
    match Arch::start(alloc, image, args) {
        Ok(arch) => Ok(arch),
        // words whose start block is too long are refused
        Err(StartFault::TooLong { .. } | StartFault::OutOfMemory) => Err(Refusal::OutOfMemory),
    }
}

/// Judges a trace beside an object of a byte order, if there is one.
fn judge_given(alloc: Global, calls: Option<Bytes>, big: bool) -> Result<Trace, Refusal>
    ensures judged { Judges result (λ t. IsGiven calls big t) (λ o. JudgesGiven calls big o (λ _. ⊥)) }
    ensures trace { IfOk result IsRunTrace }
{
    match calls {
        Some(bytes) => judge_trace(alloc, bytes.as_slice(), big),
        None => Ok(Trace::absent(alloc)),
    }
}

/// Judges an object, then the point that its run begins with, if there is one, and then the trace
/// beside it, if there is one.
pub fn judge_program(
    alloc: Global,
    object: Bytes,
    point: Option<Bytes>,
    calls: Option<Bytes>,
    args: &[String],
) -> Result<Program, Refusal>
    requires { StartsRun point (map string_bytes args.now) }
    ensures judged { JudgesProgram object point calls (map string_bytes args.now) result }
    ensures program { IfOk result CanRun }
{
    let image = match judge_object(alloc, object.as_slice()) {
        Ok(image) => image,
        Err(refusal) => return Err(refusal),
    };
    let big = image.text.big;
    let arch = match judge_start(alloc, point, image, args) {
        Ok(arch) => arch,
        Err(refusal) => return Err(refusal),
    };
    match judge_given(alloc, calls, big) {
        Ok(trace) => Ok(Program { arch, trace }),
        Err(refusal) => Err(refusal),
    }
}
