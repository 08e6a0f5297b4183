//! Laws of the effects, each carried by a call whose contract is the law.
ghost use Rattle.std.specs.Prelude.{◌≡◌, ◌+◌, ◌<◌, ◌^◌, ℕ, true, false, Ok, IfOk};
ghost use Rattle.std.specs.List.{Contains};
ghost use Rattle.pisa_isa.specs.declared.classes.AccessKind.TheVariants as access;
ghost use Rattle.pisa_isa.specs.declared.instr.Instr.{Instr};
ghost use Rattle.pisa_isa.specs.declared.instr.Op.{Op};
ghost use Rattle.pisa_isa.specs.declared.places.Place.{Place};
ghost use Rattle.pisa_isa.specs.Classes.{access_of, control_of};
ghost use Rattle.pisa_isa.specs.Coding.{IsWellFormed};
ghost use Rattle.pisa_isa.specs.Places.{writes_of};
ghost use Rattle.pisa_step.specs.declared.action.Side.TheVariants as side;
ghost use Rattle.pisa_step.specs.declared.changes.Changes.{Changes};
ghost use Rattle.pisa_step.specs.declared.changes.TextRange.{TextRange};
ghost use Rattle.pisa_step.specs.Actions.{action_of};
ghost use Rattle.pisa_step.specs.Dependence.{Accesses, GoesOn, ReadTheSame, effective_address, loaded_count, value_at, written_places};
ghost use Rattle.pisa_step.specs.Effect.{changed, effect_of};
ghost use Rattle.pisa_step.specs.Proper.{IsProper};
ghost use Rattle.pisa_step.specs.Reader.{Reader};
ghost use Rattle.pisa_step.specs.Memory.{part_loaded_at, word_at};

/// Two part loads, at the two ends of a word that lies anywhere, give the word: in a little-endian
/// machine the right part at its first byte and the left part at its last one, and in a big-endian
/// machine the left part at its first byte and the right part at its last one.
pub fn part_loads_make_words()
    ensures little { (s : Reader) (a old : ℕ) → s.big ≡ false → ((k : ℕ) → s.bytes k < 2 ^ 8) → old < 2 ^ 32 →
        part_loaded_at side.Left s (a + 3) (part_loaded_at side.Right s a old) ≡ word_at s a }
    ensures big { (s : Reader) (a old : ℕ) → s.big ≡ true → ((k : ℕ) → s.bytes k < 2 ^ 8) → old < 2 ^ 32 →
        part_loaded_at side.Right s (a + 3) (part_loaded_at side.Left s a old) ≡ word_at s a }
{}

/// An instruction has the same effect on two machines that agree on the places that it reads, on the
/// bytes of memory that it loads and on the byte order: it depends on nothing else.
pub fn effects_depend_on_what_is_read()
    ensures { (s t : Reader) (i : Instr) (pc : ℕ) (text : TextRange) → IsWellFormed i → ReadTheSame i s t
        → effect_of s i pc text ≡ effect_of t i pc text }
{}

/// An instruction that doesn't stop writes exactly the places that the table lists, and no other place
/// reads anything new afterwards.
pub fn effects_write_what_is_listed()
    ensures listed { (s : Reader) (i : Instr) (pc : ℕ) (text : TextRange) (e : Changes) → effect_of s i pc text ≡ Ok e
        → written_places e ≡ writes_of i }
    ensures others { (s : Reader) (i : Instr) (pc : ℕ) (text : TextRange) (e : Changes) (p : Place)
        → effect_of s i pc text ≡ Ok e → (Contains (writes_of i) p → ⊥) → value_at (changed s e) p ≡ value_at s p }
{}

/// An instruction that doesn't stop writes registers above 0 and below 32, in rising order, and memory
/// at addresses below 2^32, of which none lies in text.
pub fn effects_write_where_they_can()
    ensures { (s : Reader) (i : Instr) (pc : ℕ) (text : TextRange) → IsWellFormed i → IfOk (effect_of s i pc text) (IsProper text) }
{}

/// A load or a store that doesn't stop has its effective address, and a store a write; no other
/// instruction has either. An operation that the table has no load for loads no byte.
pub fn effects_access_what_is_listed()
    ensures access { (s : Reader) (i : Instr) (pc : ℕ) (text : TextRange) (e : Changes) → effect_of s i pc text ≡ Ok e
        → Accesses (access_of i.op) (effective_address s i) e }
    ensures loaded { (o : Op) → (access_of o ≡ access.Load → ⊥) → loaded_count (action_of o) ≡ 0 }
{}

/// An instruction that doesn't stop goes on as its control says: eight bytes further, modulo 2^32,
/// where it has none or is a branch that isn't taken; else to its target.
pub fn effects_go_where_control_says()
    ensures { (s : Reader) (i : Instr) (pc : ℕ) (text : TextRange) (e : Changes) → effect_of s i pc text ≡ Ok e
        → GoesOn (control_of i) s i pc e }
{}
