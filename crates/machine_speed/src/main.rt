//! Runs an object on sim-outorder's machine until it exits, so that the machine's speed can be measured.
//!
//! The words are the object, how many rows the unit has places for, and the trace of the object's calls
//! where it makes others than an exit. It prints how many instructions committed. The status is 1 where
//! the words can't be used, and where the run doesn't end by an exit.
#![tactic(auto)]

ghost use Rattle.std.specs.Prelude.{IfSome};
ghost use Rattle.sim_safe.specs.Record.{IsRunTrace};

mod machine;
mod run;

use event_trace::Trace;
use std::process::ExitCode;
use std::{env, fs, io};

/// The trace in a file, and what stands for a trace where none is named.
fn trace_in(rt: &HostRuntime, name: Option<&String>) -> Option<Trace>
    ensures { IfSome result IsRunTrace }
{
    let Some(name) = name else {
        return Some(Trace::absent(rt.alloc()));
    };
    let Ok(bytes) = fs::read(rt, name.as_str()) else {
        return None;
    };
    event_trace::read(rt.alloc(), bytes.as_slice()).ok()
}

/// How many instructions commit in the run that the words name, where it ends by an exit.
fn committed(rt: &HostRuntime) -> Option<u64> {
    let words: Vec<String> = env::args(rt).ok()?.collect(rt.alloc()).ok()?;
    let object = fs::read(rt, words.get(1)?.as_str()).ok()?;
    let rows = words.get(2)?.as_str().parse::<u32>().ok()?;
    let trace = trace_in(rt, words.get(3))?;
    let core = machine::machine(rt.alloc(), object.as_slice(), rows)?;
    run::run(core, &trace)
}

fn main(rt: HostRuntime) -> io::Result<ExitCode> {
    match committed(&rt) {
        Some(count) => {
            println!(rt; "{count} instructions")?;
            Ok(ExitCode::SUCCESS)
        }
        None => Ok(ExitCode::FAILURE),
    }
}
