ghost use Rattle.std.specs.Prelude.{◌≡◌, ◌+◌, ◌<◌, ◌≤◌};
ghost use Rattle.registers.specs.Runs.{part, patched};

/// A run of a chip's bits: the lowest, and how many.
#[derive(Clone, Copy)]
pub struct Run {
    pub low: u8,
    pub width: u8,
    ghost inside: { (width ≤ 32) × ((low < 128) × (low + width ≤ 128)) },
}

impl Run {
    /// The run without a bit.
    pub const EMPTY: Run = Run { low: 0, width: 0 };

    /// The number in a run.
    pub fn fetch(self, bits: u128) -> u32
        ensures { result ≡ part bits self.low self.width }
    {
        ((bits >> self.low) % (1 << self.width)) as u32
    }

    /// The bits with `v`, as much of it as fits, in a run.
    pub fn store(self, bits: u128, v: u32) -> u128
        ensures { result ≡ patched bits self.low self.width v }
    {
        let above = bits >> self.low >> self.width;
        let below = bits % (1 << self.low);
        let new = v as u128 % (1 << self.width);
        ((above << self.width | new) << self.low) | below
    }
}
