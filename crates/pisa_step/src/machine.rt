ghost use Rattle.std.specs.Prelude.{◌≡◌, ◌+◌, ◌<◌, ◌≤◌, ◌^◌, ◌↔◌, ℕ, IsTrue, length};
ghost use Rattle.pisa_step.specs.Memory.{half_at, word_at};
ghost use Rattle.pisa_step.specs.Reader.{Reader, with_reg, with_hi, with_lo, with_bytes};

/// Registers and memory that instructions read and write.
///
/// A set call changes the reading of what it sets and of nothing else. Register 0 is always 0,
/// whatever is set in it.
pub trait Machine {
    /// What is read.
    ghost reads: { Self → Reader };

    /// Whether a write of so many bytes from an address on fits here. Any set call may change that.
    ghost has_room: { Self → ℕ → ℕ → Type 0 };

    /// What the two values hold beside their readings is the same.
    ghost agrees: { Self → Self → Type 0 };

    /// The register of this number, 0 to 31.
    fn reg(&self, r: u8) -> u32
        requires { r < 32 }
        ensures { result ≡ (reads self.now).regs r };

    /// The upper half of the last product, or the last remainder.
    fn hi(&self) -> u32
        ensures { result ≡ (reads self.now).hi };

    /// The lower half of the last product, or the last quotient.
    fn lo(&self) -> u32
        ensures { result ≡ (reads self.now).lo };

    /// The byte at an address.
    fn byte(&self, addr: u32) -> u8
        ensures { result ≡ (reads self.now).bytes addr };

    /// Whether words and halves have their highest byte first.
    fn big(&self) -> bool
        ensures { result ≡ (reads self.now).big };

    /// The half at an address, in the machine's byte order.
    ///
    /// A machine that finds its bytes side by side may read them at once.
    fn half(&self, addr: u32) -> u16
        requires { addr + 2 ≤ 2 ^ 32 }
        ensures { result ≡ half_at (reads self.now) addr }
    {
        let bytes = [self.byte(addr), self.byte(addr + 1)];
        if self.big() {
            u16::from_be_bytes(bytes)
        } else {
            u16::from_le_bytes(bytes)
        }
    }

    /// The word at an address, in the machine's byte order.
    ///
    /// A machine that finds its bytes side by side may read them at once.
    fn word(&self, addr: u32) -> u32
        requires { addr + 4 ≤ 2 ^ 32 }
        ensures { result ≡ word_at (reads self.now) addr }
    {
        let bytes = [
            self.byte(addr),
            self.byte(addr + 1),
            self.byte(addr + 2),
            self.byte(addr + 3),
        ];
        if self.big() {
            u32::from_be_bytes(bytes)
        } else {
            u32::from_le_bytes(bytes)
        }
    }

    /// Whether there is room for a write of `len` bytes from `addr` on.
    fn room(&self, addr: u32, len: u32) -> bool
        requires { addr + len ≤ 2 ^ 32 }
        ensures { IsTrue result ↔ has_room self.now addr len };

    /// Sets a register, 0 to 31.
    fn set_reg(&mut self, r: u8, v: u32)
        requires { r < 32 }
        ensures reads { reads self.new ≡ with_reg (reads self.old) r v }
        ensures agrees { agrees self.old self.new };

    /// Sets HI.
    fn set_hi(&mut self, v: u32)
        ensures reads { reads self.new ≡ with_hi (reads self.old) v }
        ensures agrees { agrees self.old self.new };

    /// Sets LO.
    fn set_lo(&mut self, v: u32)
        ensures reads { reads self.new ≡ with_lo (reads self.old) v }
        ensures agrees { agrees self.old self.new };

    /// Sets the bytes from `addr` on.
    fn set_bytes(&mut self, addr: u32, bytes: &[u8])
        requires range { addr + length bytes.now ≤ 2 ^ 32 }
        requires room { has_room self.old addr (length bytes.now) }
        ensures reads { reads self.new ≡ with_bytes (reads self.old) addr bytes.now }
        ensures agrees { agrees self.old self.new };

    /// Register 0 reads 0.
    ghost zero_reads_zero: { (m : Self) → (reads m).regs 0 ≡ 0 };

    /// Each value agrees with itself.
    ghost agrees_with_itself: { (m : Self) → agrees m m };

    /// Agreement goes both ways.
    ghost agrees_back: { (a b : Self) → agrees a b → agrees b a };

    /// Two values of which each agrees with a third agree.
    ghost agrees_in_turn: { (a b c : Self) → agrees a b → agrees b c → agrees a c };
}
