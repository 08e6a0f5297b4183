//! Laws of overlays, each carried by a call whose contract is the law.
ghost use Rattle.std.specs.Prelude.{◌≡◌, ℕ, List, [], Ok};
ghost use Rattle.pisa_isa.specs.declared.instr.Instr.{Instr};
ghost use Rattle.pisa_step.specs.declared.changes.Changes.{Changes};
ghost use Rattle.pisa_step.specs.declared.changes.TextRange.{TextRange};
ghost use Rattle.pisa_step.specs.Effect.{effect_of};
ghost use Rattle.pisa_step.specs.Reader.{Reader};
ghost use Rattle.spec_state.specs.Laws.{IsAlike, ReadsAlong, effects_along};
ghost use Rattle.spec_state.specs.Overlay.{Overlaid, StandsFor, WritesInBlock, seen};

/// Whatever an instruction writes lies in one aligned block of 8 bytes. So a view on which fewer
/// effects were applied than it has room for has room for the effect of every operation.
#[tactic(auto, using(crate::proofs::Blocks::effects_in_block))]
pub fn effects_lie_in_blocks()
    ensures { (s : Reader) (i : Instr) (pc : ℕ) (text : TextRange) (e : Changes) → effect_of s i pc text ≡ Ok e → WritesInBlock e }
{}

/// Where the effects of a wrong path were applied to a view, it reads as a copy of the state on which the
/// instructions of the path were done, each at its own address, and the next one has the effect that it
/// has there. One that would stop there has none.
pub fn wrong_paths_read_as_copies()
    ensures { (text : TextRange) (s : Reader) (path : List (Instr × ℕ)) (x : Instr × ℕ) (o : Overlaid)
        → StandsFor o (effects_along text s path) → ReadsAlong text s path x o }
{}

/// After a rollback each reading is that of the state below, and a second rollback changes nothing that
/// is read. So it is of any two overlays that stand for the same effects.
#[tactic(auto, using(crate::proofs::Paths::stand_alike))]
pub fn two_rollbacks_are_one()
    ensures bare { (s : Reader) (o : Overlaid) → StandsFor o [] → seen s o ≡ s }
    ensures once { (effects : List Changes) (o p : Overlaid) → StandsFor o effects → StandsFor p effects → IsAlike o p }
{}
