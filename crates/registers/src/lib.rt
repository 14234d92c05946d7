#![tactic(auto)]

pub mod clashes;
pub mod runs;

ghost use Rattle.std.specs.Prelude.{◌≡◌, ℕ, ◌^◌, ◌<◌};
ghost use Rattle.registers.specs.Model.{Model, Lawful, Written};

/// The registers of a chip. Classes are 0 byte, 1 half and 2 word; for a number that is
/// no register or no class each question is answered with no, or 0.
pub trait RegisterFile {
    /// The number of registers.
    const R: usize;

    ghost model: { Self → Model };

    /// The number of registers of this file, of which the laws speak.
    fn registers(&self) -> usize
        ensures { result ≡ (model self.now).count };

    /// Whether register `r` is of a class.
    fn belongs(&self, r: usize, class: u8) -> bool
        ensures { result ≡ (model self.now).belongs r class };

    /// Whether a write to `r` may change `s`.
    fn overlaps(&self, r: usize, s: usize) -> bool
        ensures { result ≡ (model self.now).overlaps r s };

    /// The bits of register `r`.
    fn width(&self, r: usize) -> u8
        ensures { result ≡ (model self.now).width r };

    /// How many registers are of a class.
    fn p(&self, class: u8) -> u8
        ensures { result ≡ (model self.now).p class };

    /// The most registers of class `b` that one of class `c` overlaps.
    fn q(&self, b: u8, c: u8) -> u8
        ensures { result ≡ (model self.now).q b c };

    ghost lawful: { (x : Self) → Lawful (model x) };
}

/// A register file with contents: a number in each register.
pub trait Bank: RegisterFile {
    ghost contents: { Self → ℕ → ℕ };

    fn read(&self, r: usize) -> u32
        ensures { (result ≡ contents self.now r) × (result < 2 ^ (Self.RegisterFile.model self.now).width r) };

    fn write(&mut self, r: usize, v: u32)
        ensures file { Self.RegisterFile.model self.new ≡ Self.RegisterFile.model self.old }
        ensures written { Written (Self.RegisterFile.model self.old) r v (contents self.old) (contents self.new) };

    ghost below: { (x : Self) (r : ℕ) → contents x r < 2 ^ (Self.RegisterFile.model x).width r };
}
