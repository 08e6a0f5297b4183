//! A row that commits.
ghost use Rattle.std.specs.Prelude.{◌≡◌, ℕ, List};
ghost use Rattle.sim_safe.specs.Call.{exit_of};
ghost use Rattle.sim_safe.specs.Observed.{SawCounts, SawWithoutMemory};
ghost use Rattle.sim_safe.specs.Record.{IsRunTrace};
ghost use Rattle.core_watch.specs.Shown.{Shown, TakesAll};
ghost use Rattle.core_events.specs.Exits.{exit_by};
ghost use Rattle.watched_commit.specs.Stage.{shown_by, end_with};

use crate::stage::Committed;
use core_watch::{Watch, show_commit};
use event_trace::{CallKind, Trace};
use ruu_core::Station;
use sim_safe::{CallNote, CommitRecord};

/// Shows a row that commits. A right row has a record, and no other commits.
pub fn show_row<W: Watch>(
    s: &Station,
    trace: &Trace,
    cycle: u64,
    watch: &mut W,
) -> Result<(), W::Fault>
    requires { IsRunTrace trace.now }
    ensures took { (start : W) (h : List Shown) → W.took start h watch.old → TakesAll W.took W.cut start h (shown_by trace.now cycle s.now.row s.now.commit) watch.new result }
    ensures count { SawCounts W.means (W.faults watch.old) (W.faults watch.new) result }
    ensures memory { W.takes_no_memory watch.old → SawWithoutMemory W.takes_no_memory W.means watch.new result }
{
    match &s.commit {
        Some(did) => show_commit(cycle, s.row, did, trace, watch),
        None => Ok(()),
    }
}

/// The exit code of a call, if it exits.
fn exit_noted(note: &CallNote) -> Option<u32>
    ensures { result ≡ exit_of note.now.kind note.now.code }
{
    match note.kind {
        CallKind::Exit => Some(note.code),
        CallKind::Plain => None,
        CallKind::Emit => None,
    }
}

/// The exit code of what a row did, if it exits.
fn exit_by(commit: &Option<CommitRecord>) -> Option<u32>
    ensures { result ≡ exit_by commit.now }
{
    match commit {
        Some(did) => match &did.call {
            Some(note) => exit_noted(note),
            None => None,
        },
        None => None,
    }
}

/// How the stage ends with a row, if it does: the row is the `commits`-th that commits, of at most `most`.
pub fn end_with(s: &Station, commits: u32, most: u64) -> Option<Committed>
    ensures { result ≡ end_with (exit_by s.now.commit) commits most }
{
    match exit_by(&s.commit) {
        Some(code) => Some(Committed::Exited(code)),
        None => {
            if u64::from(commits) == most {
                Some(Committed::Spent)
            } else {
                None
            }
        }
    }
}
