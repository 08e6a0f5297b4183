//! Laws of the assembler, each carried by a call whose contract is the law.
ghost use Rattle.std.specs.Prelude.{◌≡◌, ◌%◌, ◌^◌, ◌<◌, ◌≤◌, ℕ, Some, Ok, false};
ghost use Rattle.pisa_isa.specs.declared.instr.Instr.{Instr};
ghost use Rattle.pisa_isa.specs.Classes.{is_float_op};
ghost use Rattle.pisa_isa.specs.Coding.{IsWellFormed, decoded, number_of, second_word};
ghost use Rattle.pisa_isa.specs.Targets.{branch_target, jump_target};
ghost use Rattle.pisa_asm.specs.Operands.{branch_field, jump_field};
ghost use Rattle.pisa_asm.specs.Passes.{CanBeHeld, described};
ghost use Rattle.pisa_asm.specs.Rounds.{image_of_one, source_of_one};

/// A source that opens the text at an instruction's address and has the line that is printed for
/// it there describes the image with the two words of this instruction, and an object can hold it.
/// The words stand for the instruction.
#[tactic(auto, using(crate::proofs::RoundSources::one_back, crate::proofs::RoundSources::one_decoded))]
pub fn one_instruction_comes_back()
    ensures source { (pc : ℕ) (i : Instr) → pc % 8 ≡ 0 → pc ≤ 0x7feffff8 → IsWellFormed i → is_float_op i.op ≡ false
        → (described (source_of_one i pc) ≡ Ok (image_of_one i pc)) × CanBeHeld (image_of_one i pc) }
    ensures words { (i : Instr) → IsWellFormed i
        → decoded (number_of i.op) (second_word i % 2 ^ 32) ≡ Some i }
{}

/// A branch has a field for a target exactly where the machine goes there by it, and no other field
/// leads there.
#[tactic(auto, using(crate::proofs::RoundSlots::branch_back, crate::proofs::Targets::branch_leads))]
pub fn branches_reach_their_targets()
    ensures field { (pc imm : ℕ) → pc < 2 ^ 32 → imm < 2 ^ 16
        → branch_field pc (branch_target pc imm) ≡ Some imm }
    ensures target { (pc target imm : ℕ) → branch_field pc target ≡ Some imm
        → branch_target pc imm ≡ target }
{}

/// The same of a jump.
#[tactic(auto, using(crate::proofs::RoundSlots::jump_back, crate::proofs::Targets::jump_leads))]
pub fn jumps_reach_their_targets()
    ensures field { (pc field : ℕ) → field < 2 ^ 26
        → jump_field pc (jump_target pc field) ≡ Some field }
    ensures target { (pc target field : ℕ) → jump_field pc target ≡ Some field
        → jump_target pc field ≡ target }
{}
