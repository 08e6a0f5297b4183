//! The stages of a cycle, one after another.
ghost use Rattle.std.specs.Prelude.{◌≡◌, ◌^◌, ◌<◌};
ghost use Rattle.sim_safe.specs.Record.{IsRunTrace};
ghost use Rattle.ooo_table.specs.Machine.{Given};
ghost use Rattle.plain_machine.specs.Fits.{Fits};
ghost use Rattle.plain_machine.specs.Standing.{StandsAt};
ghost use Rattle.plain_machine.specs.Cycle.{FitsNext, BehindCommits, EndsBehind, StagesEnd};

use crate::fetch::fetch;
use crate::machine::Plain;
use crate::stages::{commit, dispatch, issue, recover};
use event_trace::Trace;
use ooo_plain::dispatch::stops;
use ss_base::OutOfMemory;

/// How a cycle left the machine.
#[derive(Clone, Copy, Debug, PartialEq, Eq)]
pub enum PlainTurn {
    /// The next cycle may come.
    Going,
    /// The run ended with the commit of the row of this number.
    Committed(u64),
    /// The machine stopped.
    Stopped,
}

/// The stages from the recovery on.
fn behind_commits(plain: &mut Plain, trace: &Trace, cycle: u64) -> Result<PlainTurn, OutOfMemory>
    requires fits { Fits cycle (2 ^ 30) 0 plain.old }
    requires more { cycle < 2 ^ 25 }
    requires trace { IsRunTrace trace.now }
    ensures ends { (g : Given) → g.trace ≡ trace.now → BehindCommits g cycle plain.old → EndsBehind g cycle plain.new result }
    ensures fits { FitsNext cycle plain.new result }
{
    recover(plain, cycle);
    issue(plain, cycle);
    let stopped = stops(plain.rows.as_slice(), cycle);
    dispatch(plain, cycle);
    if stopped {
        return Ok(PlainTurn::Stopped);
    }
    fetch(plain, trace, cycle)?;
    Ok(PlainTurn::Going)
}

/// All stages of a cycle, in a run that ends with its `most`-th commit.
pub fn whole_cycle(
    plain: &mut Plain,
    trace: &Trace,
    cycle: u64,
    most: u64,
) -> Result<PlainTurn, OutOfMemory>
    requires fits { Fits cycle 0 0 plain.old }
    requires more { cycle < 2 ^ 25 }
    requires trace { IsRunTrace trace.now }
    ensures ends { (g : Given) → g.trace ≡ trace.now → StandsAt g cycle plain.old → StagesEnd g cycle most plain.new result }
    ensures fits { FitsNext cycle plain.new result }
{
    match commit(plain, cycle, most) {
        Some(row) => Ok(PlainTurn::Committed(row)),
        None => behind_commits(plain, trace, cycle),
    }
}
