//! What follows from the definitions, each law as the contract of a function that does nothing.
ghost use Rattle.std.specs.Prelude.{◌≡◌, ℕ, List, [], All};
ghost use Rattle.pisa_isa.specs.declared.instr.Instr.{Instr};
ghost use Rattle.pisa_isa.specs.declared.classes.ControlKind.TheVariants as control;
ghost use Rattle.pisa_isa.specs.Classes.{control_of};
ghost use Rattle.event_trace.specs.declared.trace.Trace.{Trace};
ghost use Rattle.sim_safe.specs.declared.record.CommitRecord.{CommitRecord};
ghost use Rattle.sim_safe.specs.State.{State};
ghost use Rattle.sim_safe.specs.Record.{Item};
ghost use Rattle.sim_safe.specs.Commit.{onto};
ghost use Rattle.sim_safe.specs.Run.{items_of};
ghost use Rattle.mem_hier.specs.declared.config.HierConfig.{HierConfig};
ghost use Rattle.bpred_unit.specs.declared.config.PredConfig.{PredConfig};
ghost use Rattle.sim_refs.specs.Laws.{HasAddress, records_of, AgreesWithStatistics, RefersOnce, RefersInOrder, FrontsCount, RightOrWrong, Joins, AsksNothing, AnswersAlike};

/// There are as many fetches as instructions, and as many loads and stores as there are among them.
pub fn references_are_of_instructions()
    ensures { (h : List CommitRecord) → All HasAddress h → RefersOnce h }
{}

/// A load or store comes directly behind its own instruction's fetch, and a system call refers to no data.
pub fn references_are_in_order()
    ensures { (r : CommitRecord) (h : List CommitRecord) → RefersInOrder r h }
{}

/// The first level of fetches and their TLB count each instruction once, those of data each load and store, and a shared
/// first level both.
pub fn first_caches_count_instructions()
    ensures { (c : HierConfig) (h : List CommitRecord) → All HasAddress h → FrontsCount c h }
{}

/// Predictions that were right and predictions that were wrong make up the look-ups, which are those of the branches and
/// jumps.
pub fn predictions_are_right_or_wrong()
    ensures { (c : PredConfig) (h : List CommitRecord) → RightOrWrong c h }
{}

/// A run in two parts asks what its parts ask, and what is counted without the predictor adds up.
pub fn parts_join()
    ensures { (c : PredConfig) (h g : List CommitRecord) → Joins c h g }
{}

/// An instruction that directs no control asks the predictor nothing and is not counted.
pub fn other_instructions_ask_nothing()
    ensures { (c : PredConfig) (r : CommitRecord) (h : List CommitRecord) → control_of r.instr ≡ control.Nothing → AsksNothing c r h }
{}

/// To look up and tell every other instruction too would change no answer.
pub fn other_look_ups_change_nothing()
    ensures { (c : PredConfig) (h : List CommitRecord) (pc : ℕ) (i : Instr) → AnswersAlike c h pc i }
{}

/// In every run each load and store that is done has an effective address, so that it makes its reference.
pub fn runs_have_addresses()
    ensures { (trace : Trace) (n : ℕ) (s : State) → All HasAddress (records_of (onto (items_of trace n s) [])) }
{}

/// The instructions, loads, stores and branches of the statistics are those that are counted here.
pub fn counts_agree_with_statistics()
    ensures { (c : PredConfig) (h : List Item) → AgreesWithStatistics c h }
{}
