//! Laws of the coding and of the places, each carried by a call whose contract is the law.
ghost use Rattle.std.specs.Prelude.{◌≡◌, ◌+◌, ◌*◌, ◌%◌, ◌^◌, ◌<◌, ◌≤◌, ◌↔◌, ℕ, List, [], Some, None, All, nat_eq, if◌then◌else◌, bit_and, bit_or};
ghost use Rattle.std.specs.Int.{cast_signed, cast_unsigned, w16, w32};
ghost use Rattle.std.specs.List.{list_any};
ghost use Rattle.pisa_isa.specs.declared.instr.Op.{Op};
ghost use Rattle.pisa_isa.specs.declared.instr.Op.TheVariants as op;
ghost use Rattle.pisa_isa.specs.declared.instr.Instr.{Instr};
ghost use Rattle.pisa_isa.specs.declared.instr.IllegalWhy.{IllegalWhy};
ghost use Rattle.pisa_isa.specs.Coding.{Codes, IsWellFormed, Reason, decoded, number_of, operation_of, second_word};
ghost use Rattle.pisa_isa.specs.Targets.{branch_target, jump_target};
ghost use Rattle.pisa_isa.specs.Places.{IsNamed, registers, times_listed, reads_main_of, reads_second_of, writes_of};

/// Two words code at most one instruction, and they code it exactly where `decode` answers it.
#[tactic(auto, using(crate::specs::CodingLaws::codes_unique, crate::specs::CodingLaws::codes_decoded, crate::specs::CodingLaws::decoded_codes))]
pub fn coding_is_exact()
    ensures unique { (first second : ℕ) (i j : Instr)
        → Codes first second i → Codes first second j → i ≡ j }
    ensures decoded { (first second : ℕ) (i : Instr)
        → Codes first second i ↔ (decoded first second ≡ Some i) }
{}

/// Where two words code no instruction exactly one reason holds, and where they code one, none.
#[tactic(auto, using(crate::specs::CodingLaws::reason_codes, crate::specs::CodingLaws::reason_exists, crate::specs::CodingLaws::reason_unique))]
pub fn refusals_are_exact()
    ensures nothing { (first second : ℕ) (why : IllegalWhy) (i : Instr)
        → Reason first second why → Codes first second i → ⊥ }
    ensures some { (first second : ℕ)
        → decoded first second ≡ None → (why : IllegalWhy) × Reason first second why }
    ensures one { (first second : ℕ) (why other : IllegalWhy)
        → Reason first second why → Reason first second other → why ≡ other }
{}

/// Of all pairs of words that code an instruction, the one of `encode` is the least in each word:
/// its annotation and its unused bits are 0.
#[tactic(auto, using(crate::specs::CodingLaws::codes_least))]
pub fn encoding_is_least()
    ensures { (first second : ℕ) (i : Instr)
        → Codes first second i → (number_of i.op ≤ first) × (second_word i ≤ second) }
{}

/// An opcode belongs to one operation, and all opcodes are below 256.
#[tactic(auto, using(crate::specs::Numbers::operation_has, crate::specs::Numbers::operation_at, crate::specs::Numbers::number_below))]
pub fn opcodes_are_unique()
    ensures found { (number : ℕ) (o : Op) → (operation_of number ≡ Some o) ↔ (number_of o ≡ number) }
    ensures below { (o : Op) → number_of o < 256 }
{}

/// A register is listed once where it is among the numbers and is not 0, and else not at all.
#[tactic(auto, using(crate::specs::PlaceLaws::registers_once))]
pub fn registers_are_listed_once()
    ensures { (r : ℕ) (rs : List ℕ) → times_listed r (registers rs)
        ≡ (if nat_eq r 0 then 0 else if list_any (λ q. nat_eq q r) rs then 1 else 0) }
{}

/// The places of a well-formed instruction are HI, LO and registers 1 to 31.
#[tactic(auto, using(crate::specs::PlaceLaws::main_named, crate::specs::PlaceLaws::second_named, crate::specs::PlaceLaws::writes_named))]
pub fn places_are_named()
    ensures main { (i : Instr) → IsWellFormed i → All IsNamed (reads_main_of i) }
    ensures second { (i : Instr) → IsWellFormed i → All IsNamed (reads_second_of i) }
    ensures writes { (i : Instr) → IsWellFormed i → All IsNamed (writes_of i) }
{}

/// A system call reads and writes no place.
#[tactic(auto, using(crate::specs::PlaceLaws::call_reads, crate::specs::PlaceLaws::call_reads_second, crate::specs::PlaceLaws::call_writes))]
pub fn system_calls_have_no_places()
    ensures main { (i : Instr) → i.op ≡ op.Syscall → reads_main_of i ≡ [] }
    ensures second { (i : Instr) → i.op ≡ op.Syscall → reads_second_of i ≡ [] }
    ensures writes { (i : Instr) → i.op ≡ op.Syscall → writes_of i ≡ [] }
{}

/// In terms of words: a branch adds four times its immediate value, extended with its sign, to the
/// address behind it; a jump joins the upper four bits of its own address with four times its target.
#[tactic(auto, using(crate::proofs::TargetWords::branch_words, crate::proofs::TargetWords::jump_words))]
pub fn targets_are_words()
    ensures branch { (pc imm : ℕ) → pc < 2 ^ 32 → imm < 2 ^ 16
        → branch_target pc imm ≡ (pc + 8 + 4 * cast_unsigned w32 (cast_signed w16 imm)) % 2 ^ 32 }
    ensures jump { (pc target : ℕ) → pc < 2 ^ 32 → target < 2 ^ 26
        → jump_target pc target ≡ bit_or (bit_and pc 0xf0000000) (4 * target) }
{}
