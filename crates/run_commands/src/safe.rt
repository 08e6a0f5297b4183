//! The command sim-safe: an object is run, over recorded calls if there are any.
ghost use Rattle.std.specs.Prelude.{map, string_bytes};
ghost use Rattle.std.specs.Option.{option_copied};
ghost use Rattle.sim_opts.specs.Request.{StartsRun};
ghost use Rattle.sim_opts.specs.Borrowed.{run_in};
ghost use Rattle.journal.specs.Outcome.{Comes};
ghost use Rattle.run_commands.specs.Outcome.{SimSafeOutcome, sim_safe_inputs};

use crate::launching::{Launched, launch};
use crate::running::run_program;
use answers::Answer;
use journal::{Fault, Outside};
use sim_opts::SimSafe;
use std::alloc::Global;

/// Does the run that a request asks for, from the program's start, whose start block fits, or from a
/// point.
pub fn sim_safe<O: Outside>(
    alloc: Global,
    request: SimSafe<'_>,
    outside: &mut O,
) -> Result<Answer, Fault>
    requires { StartsRun (option_copied request.restart) (map string_bytes request.args.now) }
    ensures { Comes O.view outside.old (sim_safe_inputs (run_in request.entry)) (SimSafeOutcome (run_in request.entry)) outside.new result }
{
    match launch(alloc, request, outside) {
        Ok(Launched::Ready(program)) => run_program(alloc, program, request, outside),
        Ok(Launched::Refused(answer)) => Ok(answer),
        Err(fault) => Err(fault),
    }
}
