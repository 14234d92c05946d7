ghost use Rattle.std.specs.Prelude.{◌≡◌, ℕ, ◌^◌, ◌<◌, List};
ghost use Rattle.registers.specs.Model.{Written};
ghost use Rattle.registers.specs.Runs.{Leaves};
ghost use Rattle.registers.specs.Description.{Description, Tested, fenced, lowest};
ghost use Rattle.registers.proofs.Laws.{lawful};
ghost use Rattle.chips.specs.Wiring.{numbers, numbers_below};

use registers::runs::Run;
use registers::{Bank, RegisterFile};
use std::marker::PhantomData;

/// How the registers of a chip lie in its bits, and its tables of p and q. For a number that
/// is no register or no class the answer is no, or the run without a bit.
pub trait Wiring {
    const R: usize;

    const P: [u8; 3];

    const Q: [[u8; 3]; 3];

    ghost R: { ℕ };

    ghost P: { List ℕ };

    ghost Q: { List (List ℕ) };

    ghost described: { Description };

    ghost Parts: { (ℕ → ℕ) → Type 0 };

    /// The bits of register `r`.
    fn run(r: usize) -> Run
        ensures { (result.low ≡ lowest described r) × (result.width ≡ (fenced described).width r) };

    /// Whether register `r` is of a class.
    fn belongs(r: usize, class: u8) -> bool
        ensures { result ≡ (fenced described).belongs r class };

    /// Whether a write to `r` may change `s`.
    fn overlaps(r: usize, s: usize) -> bool
        ensures { result ≡ (fenced described).overlaps r s };

    ghost as_described: { (described.count ≡ R) × (described.p ≡ P) × (described.q ≡ Q) };

    ghost tested: { Tested described };

    ghost parts: { (bits : ℕ) → Parts (numbers described bits) };
}

/// A chip of 128 bits that are its contents.
#[derive(Clone, Copy)]
pub struct Chip<W> {
    pub bits: u128,
    wiring: PhantomData<W>,
}

impl<W: Wiring> Chip<W> {
    /// A chip with these contents.
    pub fn with_bits(bits: u128) -> Self
        ensures { result.bits ≡ bits }
    {
        Chip {
            bits,
            wiring: PhantomData,
        }
    }
}

impl<W: Wiring> RegisterFile for Chip<W> {
    const R: usize = W::R;

    ghost model = { λ _. fenced W.described };

    ghost lawful = { λ x. lawful W.described W.tested };

    fn registers(&self) -> usize {
        W::R
    }

    fn belongs(&self, r: usize, class: u8) -> bool {
        W::belongs(r, class)
    }

    fn overlaps(&self, r: usize, s: usize) -> bool {
        W::overlaps(r, s)
    }

    fn width(&self, r: usize) -> u8 {
        W::run(r).width
    }

    fn p(&self, class: u8) -> u8 {
        W::P.get(class as usize).copied().unwrap_or(0)
    }

    fn q(&self, b: u8, c: u8) -> u8 {
        W::Q.get(b as usize)
            .and_then(|row| row.get(c as usize).copied())
            .unwrap_or(0)
    }
}

impl<W: Wiring> Bank for Chip<W> {
    ghost contents = { λ x. numbers W.described x.bits };

    ghost below = { λ x. numbers_below W.described x.bits };

    fn read(&self, r: usize) -> u32
        ensures number { (result ≡ numbers W.described self.now.bits r) × (result < 2 ^ (fenced W.described).width r) }
        ensures wired { W.Parts (numbers W.described self.now.bits) }
    {
        W::run(r).fetch(self.bits)
    }

    fn write(&mut self, r: usize, v: u32)
        ensures written { Written (fenced W.described) r v (numbers W.described self.old.bits) (numbers W.described self.new.bits) }
        ensures exact { Leaves (fenced W.described) (lowest W.described) r v (numbers W.described self.old.bits) (numbers W.described self.new.bits) }
    {
        self.bits = W::run(r).store(self.bits, v);
    }
}
