//! What follows from the definitions, each law as the contract of a function that does nothing.
ghost use Rattle.std.specs.Prelude.{◌≡◌, ℕ, List};
ghost use Rattle.pisa_isa.specs.declared.instr.Instr.{Instr};
ghost use Rattle.pisa_isa.specs.declared.classes.ControlKind.TheVariants as control;
ghost use Rattle.pisa_isa.specs.Classes.{control_of};
ghost use Rattle.bpred_unit.specs.declared.config.PredConfig.{PredConfig};
ghost use Rattle.bpred_unit.specs.declared.config.PredKind.TheVariants as kind;
ghost use Rattle.bpred_unit.specs.History.{Event, look_of, following};
ghost use Rattle.bpred_unit.specs.Laws.{TellsDirections, LeavesDirections, TellsBuffer, LeavesTargets, ChangesStack, LeavesStack, PutsTopBack, SawNoTransfer};

/// A direction depends on the updates of conditional branches alone.
pub fn branches_alone_change_directions()
    ensures { (c : PredConfig) (h : List Event) (e : Event) → ¬ TellsDirections e → LeavesDirections c h e }
{}

/// The targets depend on the taken transfers alone, without the returns where there is a stack.
pub fn taken_transfers_alone_change_targets()
    ensures { (c : PredConfig) (h : List Event) (e : Event) → ¬ TellsBuffer c e → LeavesTargets c h e }
{}

/// The return stack depends on the look-ups of calls and returns and on recoveries alone.
pub fn calls_and_returns_alone_change_the_stack()
    ensures { (c : PredConfig) (h : List Event) (e : Event) → ¬ ChangesStack e → LeavesStack c h e }
{}

/// A recovery to the top that a look-up gave makes the top what it was then, whatever happened in between, and leaves
/// every cell.
pub fn recoveries_put_tops_back()
    ensures { (c : PredConfig) (h : List Event) (pc : ℕ) (i : Instr) (later : List Event) → PutsTopBack c h pc i later }
{}

/// Without a stack, and before any taken transfer, each look-up answers the address behind the instruction.
pub fn unseen_transfers_fall_through()
    ensures { (c : PredConfig) (h : List Event) (pc : ℕ) (i : Instr) → c.ras ≡ 0 → SawNoTransfer h → (look_of c h pc i).next ≡ following pc }
{}

/// Where no branch is predicted taken, each look-up of a conditional branch answers the address behind it.
pub fn not_taken_branches_fall_through()
    ensures { (c : PredConfig) (h : List Event) (pc : ℕ) (i : Instr) → c.kind ≡ kind.NotTaken → control_of i ≡ control.Cond → (look_of c h pc i).next ≡ following pc }
{}
