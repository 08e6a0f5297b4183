//! Where branches and jumps go.
ghost use Rattle.std.specs.Prelude.{◌≡◌, ◌<◌, ◌^◌};
ghost use Rattle.pisa_isa.specs.Targets.{branch_target, jump_target};

/// The address to which a branch at `pc` goes where it is taken: four times its immediate value,
/// which is signed, behind the instruction that follows, modulo 2^32.
pub fn branch_target(pc: u32, imm: u16) -> u32
    ensures { result ≡ branch_target pc imm }
{
    let ahead = pc.wrapping_add(8).wrapping_add(4 * u32::from(imm));
    if imm < 0x8000 {
        ahead
    } else {
        ahead.wrapping_sub(4 * 0x1_0000)
    }
}

/// The address to which a jump at `pc` goes by its target, which is in words of four bytes: it
/// stays in the region of 2^28 bytes where the jump stands.
pub fn jump_target(pc: u32, target: u32) -> u32
    requires { target < 2 ^ 26 }
    ensures { result ≡ jump_target pc target }
{
    (pc & 0xf000_0000) + 4 * target
}
