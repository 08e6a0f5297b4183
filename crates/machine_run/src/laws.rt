//! What a run of the machine has to do with sim-safe's, as the contract of a function that does nothing.
ghost use Rattle.event_trace.specs.declared.trace.Trace.{Trace};
ghost use Rattle.sim_safe.specs.State.{State};
ghost use Rattle.machine_run.specs.declared.plan.MachineConfig.{MachineConfig};
ghost use Rattle.machine_run.specs.Plan.{Asked, IsAllowed};
ghost use Rattle.machine_run.specs.Headline.{RunKeepsHeadline};

use core_ends::first_ends_are_of_both_runs;
use machine_watch::{runs_put_out_their_output, runs_write_both_texts};
use ooo_table::runs_end_where_they_first_can;
use shown_run::runs_keep_the_headline;
use sim_watch::skips_put_out_their_output;

/// The instructions that a run of the machine commits are the first steps of sim-safe's run, in its commit text and its
/// output, and all of them with the same end where it stops by itself; until then one commits in every K cycles; and its
/// pipetrace is the text of the table, a legal schedule.
pub fn machine_runs_keep_the_headline()
    ensures { (c : MachineConfig) (trace : Trace) (s : State) (asked : Asked) → IsAllowed c → RunKeepsHeadline c trace s asked }
{
    runs_keep_the_headline();
    runs_write_both_texts();
    runs_put_out_their_output();
    skips_put_out_their_output();
    runs_end_where_they_first_can();
    first_ends_are_of_both_runs();
}
