//! The run.
ghost use Rattle.std.specs.Prelude.{◌≡◌, ◌^◌, ◌≤◌};
ghost use Rattle.ooo_table.specs.Events.{stop_word};
ghost use Rattle.sim_safe.specs.Record.{IsRunTrace};
ghost use Rattle.sim_safe.specs.State.{state_of};
ghost use Rattle.sim_safe.specs.Step.{Halt};
ghost use Rattle.sim_outorder.specs.Cycle.{CountsSo, MemorySo};
ghost use Rattle.sim_outorder.specs.Running.{IsReady};
ghost use Rattle.timed_run.specs.Timed.{LeftBy, RunsTimed, as_cycle};

use core_watch::Watch;
use event_trace::Trace;
use ooo_table::EndWord;
use pisa_step::Cause;
use sim_outorder::{Core, CoreFault, Turn};
use sim_safe::Arch;

/// How the end of a machine that stopped by itself is told, with its state then.
fn stop_word(cause: Cause, arch: &Arch) -> EndWord
    ensures { result ≡ stop_word (state_of arch.now) (Halt cause) }
{
    match cause {
        Cause::Exited { code } => EndWord::Exited(code),
        _ => {
            EndWord::Stopped {
                pc: arch.pc(),
                icnt: arch.icnt(),
                cause,
            }
        }
    }
}

/// Runs a machine from its first cycle on, until it stops by itself, `max_inst` instructions have committed or `max_cycles`
/// cycles are over, and shows it to a watch.
///
/// `Budget` where a budget is used up and the last commit was no exit. No cycle is begun with a budget of 0.
///
/// # Errors
/// The watch's fault, or `OutOfMemory` where a right store or call touches a page that isn't reserved and finds none. The
/// machine is broken then.
pub fn timed_run<W: Watch>(
    core: &mut Core,
    trace: &Trace,
    max_inst: u64,
    max_cycles: u64,
    watch: &mut W,
) -> Result<EndWord, CoreFault<W::Fault>>
    requires ready { IsReady core.old × (core.old.cycle ≡ 0) × (max_inst ≤ 10 ^ 15) × (max_cycles ≤ 10 ^ 13) }
    requires trace { IsRunTrace trace.now }
    ensures left { LeftBy core.new result }
    ensures run { RunsTimed W.took W.cut trace.now max_inst max_cycles core.old core.new watch.old watch.new result }
    ensures count { CountsSo W.means (W.faults watch.old) (W.faults watch.new) (as_cycle result) }
    ensures memory { W.takes_no_memory watch.old → MemorySo W.takes_no_memory W.means watch.new (as_cycle result) }
{
    for cycle in 0..max_cycles {
        let committed = core.stats().insn;
        if committed >= max_inst {
            return Ok(EndWord::Budget);
        }
        match core.cycle(trace, max_inst - committed, watch) {
            Ok(Turn::Going) => {}
            Ok(Turn::Spent) => return Ok(EndWord::Budget),
            Ok(Turn::Ended(cause)) => return Ok(stop_word(cause, core.arch())),
            Err(fault) => return Err(fault),
        }
    }
    Ok(EndWord::Budget)
}
