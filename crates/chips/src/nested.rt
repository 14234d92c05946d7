ghost use Rattle.chips.specs.NestedChip.{nested, NestedParts};
ghost use Rattle.chips.specs.ChipLaws.{nested_tested};
ghost use Rattle.chips.specs.ChipParts.{nested_parts};
ghost use Rattle.std.specs.Prelude.{refl};

use crate::wiring::{Chip, Wiring};
use registers::runs::Run;

const CLASS: [u8; 4] = [2, 1, 0, 0];

const WIDTH: [u8; 4] = [32, 16, 8, 8];

const LOW: [u8; 4] = [0, 0, 0, 8];

/// Four words, word `k` from bit `32 * k` on. Register `r` lies in word `r % 4`, and
/// `r / 4` is its kind: the word, its low half, bits 0 to 7, bits 8 to 15.
pub type Nested = Chip<NestedWiring>;

#[derive(Clone, Copy)]
pub struct NestedWiring;

impl Wiring for NestedWiring {
    const R: usize = 16;

    const P: [u8; 3] = [8, 4, 4];

    const Q: [[u8; 3]; 3] = [[1, 2, 2], [1, 1, 1], [1, 1, 1]];

    ghost R = { nested.count };

    ghost P = { nested.p };

    ghost Q = { nested.q };

    ghost described = { nested };

    ghost Parts = { NestedParts };

    ghost as_described = { (refl, refl, refl) };

    ghost tested = { nested_tested };

    ghost parts = { nested_parts };

    fn run(r: usize) -> Run {
        if r >= Self::R {
            return Run::EMPTY;
        }
        Run {
            low: (r % 4 * 32) as u8 + LOW[r / 4],
            width: WIDTH[r / 4],
        }
    }

    fn belongs(r: usize, class: u8) -> bool {
        r < Self::R && class < 3 && CLASS[r / 4] == class
    }

    fn overlaps(r: usize, s: usize) -> bool {
        r < Self::R && s < Self::R && r % 4 == s % 4 && (r / 4 == s / 4 || r / 4 < 2 || s / 4 < 2)
    }
}
