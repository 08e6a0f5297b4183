//! Laws of outcomes and endings.
ghost use Rattle.std.specs.Prelude.{◌≡◌, ℕ, List};
ghost use Rattle.ss_base.specs.Outside.{Files};
ghost use Rattle.journal.specs.declared.loading.Found.{Found};
ghost use Rattle.journal.specs.Outcome.{Outcome};
ghost use Rattle.answers.specs.declared.answer.Answer.{Answer};
ghost use Rattle.sim_main.specs.declared.ending.Ending.{Ending};
ghost use Rattle.sim_main.specs.Outcome.{Asked, OutcomeFor, HoldBytes, ExactlyOne};
ghost use Rattle.sim_main.specs.Answer.{Counts, TellsGrowth};

/// The answers exclude each other: of the same words, what they ask for with their configuration, and
/// what is found in the files that they load there is at most one outcome. So each answer that is no
/// fault comes exactly where its outcome does.
#[tactic(auto, using(crate::specs::OutcomeLaws::one_outcome))]
pub fn answers_exclude_each_other()
    ensures { (words : List (List ℕ)) (asked : Asked) (found : List Found) (o p : Outcome Answer) → OutcomeFor words asked found o → OutcomeFor words asked found p → o ≡ p }
{}

/// Of all words, and whatever bytes the files hold, there is exactly one outcome.
#[tactic(auto, using(crate::specs::OutcomeLaws::exactly_one))]
pub fn each_has_an_outcome()
    ensures { (words : List (List ℕ)) (files : Files) → HoldBytes files → ExactlyOne words files }
{}

/// Where a count of faults grew, the answer is that fault.
#[tactic(auto, using(crate::proofs::Grown::tells_growth))]
pub fn counts_tell()
    ensures { (before now : ℕ × ℕ × ℕ) (e : Ending) → Counts before now e → TellsGrowth before now e }
{}
