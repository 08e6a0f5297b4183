//! What the journal of a run comes to, each law as the contract of a function that does nothing.
ghost use Rattle.std.specs.Prelude.{◌≡◌, ◌≢◌, ◌++◌, ℕ, List, [], Option, Some, Result, unwrap_or};
ghost use Rattle.journal.specs.declared.fault.Fault.{Fault};
ghost use Rattle.journal.specs.Write.{Journal, output_of, report_of};
ghost use Rattle.journal.specs.Texts.{text_in};
ghost use Rattle.journal.specs.View.{Cut};
ghost use Rattle.sim_safe.specs.Commit.{text_of as commit_text, outputs_of};
ghost use Rattle.sim_watch.specs.Watch.{TextAt, WritesOrCut};
ghost use Rattle.ooo_table.specs.declared.event.EndWord.{EndWord};
ghost use Rattle.ooo_table.specs.declared.event.Log.{Log};
ghost use Rattle.pipetrace.specs.Text.{events_text, text_of};
ghost use Rattle.core_watch.specs.Shown.{Shown, CutWithin, behind};
ghost use Rattle.core_watch.specs.Items.{events_among};
ghost use Rattle.machine_watch.specs.Watch.{CutByKept, Names, Pending, Taken, last_writes, nothing_pending, run_journal, written_of};
ghost use Rattle.machine_watch.specs.Texts.{IsShort, commits_among};
ghost use Rattle.machine_watch.specs.Propers.{AreStarted};

use journal::Outside;

/// In the end a file of commit text has the lines of all commits behind what it had, and a file of the
/// pipetrace the text of the log; no other file is written. The two files have different names.
pub fn runs_write_both_texts()
    ensures commits { (file : List ℕ) (ptrace : Option (List ℕ)) (before : Journal) (text : List ℕ) (shown : List Shown) (cycles : ℕ) (end : EndWord) → ptrace ≢ Some file → text_in before file ≡ Some text
        → text_in (run_journal (record { commits = Some file; ptrace = ptrace }) shown cycles end ++ before) file ≡ Some (text ++ commit_text (commits_among shown)) }
    ensures ptrace { (file : List ℕ) (commits : Option (List ℕ)) (before : Journal) (text : List ℕ) (shown : List Shown) (log : Log) → commits ≢ Some file → text_in before file ≡ Some text → events_among shown ≡ log.events
        → text_in (run_journal (record { commits = commits; ptrace = Some file }) shown log.cycles log.end ++ before) file ≡ Some (text ++ text_of log) }
    ensures others { (file : List ℕ) (names : Names) (before : Journal) (shown : List Shown) (cycles : ℕ) (end : EndWord) → names.commits ≢ Some file → names.ptrace ≢ Some file
        → text_in (run_journal names shown cycles end ++ before) file ≡ text_in before file }
{}

/// The first stream gets what the commits put out, and nothing is reported.
#[tactic(auto, using(crate::proofs::Texts::run_output, crate::proofs::Texts::run_report))]
pub fn runs_put_out_their_output()
    ensures output { (names : Names) (shown : List Shown) (cycles : ℕ) (end : EndWord) → output_of (run_journal names shown cycles end) ≡ outputs_of (commits_among shown) }
    ensures report { (names : Names) (shown : List Shown) (cycles : ℕ) (end : EndWord) → report_of (run_journal names shown cycles end) ≡ [] }
{}

/// While a run goes on, what a file got and what is pending for it are the text of what was shown, and
/// less than a piece is pending.
pub fn texts_stand_so_far()
    ensures commits { (file : List ℕ) (ptrace : Option (List ℕ)) (before : Journal) (text : List ℕ) (shown : List Shown) → ptrace ≢ Some file → text_in before file ≡ Some text
        → TextAt file ((written_of (record { commits = Some file; ptrace = ptrace }) nothing_pending (behind shown [])).journal ++ before) (written_of (record { commits = Some file; ptrace = ptrace }) nothing_pending (behind shown [])).pending.lines (text ++ commit_text (commits_among shown)) }
    ensures ptrace { (file : List ℕ) (commits : Option (List ℕ)) (before : Journal) (text : List ℕ) (shown : List Shown) → commits ≢ Some file → text_in before file ≡ Some text
        → TextAt file ((written_of (record { commits = commits; ptrace = Some file }) nothing_pending (behind shown [])).journal ++ before) (written_of (record { commits = commits; ptrace = Some file }) nothing_pending (behind shown [])).pending.text (text ++ events_text None (events_among shown)) }
    ensures short { (names : Names) (h : List Shown) → IsShort (written_of names nothing_pending h).pending }
{}

/// What a watch took and what its `finish` wrote are the journal of the run, or that was cut within it;
/// a watch that was cut within what it was shown, by the fault that it kept, is cut within the journal
/// of the run by that fault, whatever was to be shown behind.
pub fn watches_write_their_run<O: Outside>()
    ensures whole { (names : Names) (a b c : O) (now : Pending) (shown : List Shown) (cycles : ℕ) (end : EndWord) (r : Result (Unit {0}) Fault) → Taken O.view names a nothing_pending (behind shown []) b now
        → WritesOrCut O.view b (last_writes names now cycles end) c r → WritesOrCut O.view a (run_journal names shown cycles end) c r }
    ensures cut { (names : Names) (a b : O) (shown rest : List Shown) (cycles : ℕ) (end : EndWord) (kept : Option Fault) (other : Fault) → CutWithin (λ start h now. CutByKept O.view names start nothing_pending h kept now) a [] shown b
        → Cut O.view a (run_journal names (shown ++ rest) cycles end) (unwrap_or kept other) b }
{}

/// A run writes to no file that wasn't made empty before, makes none empty, and reports nothing.
#[tactic(auto, using(crate::specs::Propers::run_keeps))]
pub fn runs_write_started_files()
    ensures { (names : Names) (shown : List Shown) (cycles : ℕ) (end : EndWord) (before : Journal) → AreStarted names before → AreStarted names (run_journal names shown cycles end ++ before) }
{}
