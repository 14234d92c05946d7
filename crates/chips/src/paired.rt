ghost use Rattle.std.specs.Prelude.{◌≡◌, refl};
ghost use Rattle.chips.specs.PairedChip.{pair, paired, PairedWords};
ghost use Rattle.chips.specs.ChipLaws.{paired_tested};
ghost use Rattle.chips.specs.ChipParts.{paired_words};

use crate::wiring::{Chip, Wiring};
use registers::runs::Run;

const SINGLES: usize = 6;

/// Three words, word `k` from bit `32 * k` on: single `2 * k` is its upper half and single
/// `2 * k + 1` its lower. Registers 0 to 5 are the singles, 6 to 8 the words.
pub type Paired = Chip<PairedWiring>;

#[derive(Clone, Copy)]
pub struct PairedWiring;

// The word that r is or lies in, from 0.
fn word_of(r: usize) -> usize
    ensures { result ≡ pair r }
{
    if r < SINGLES { r / 2 } else { r - SINGLES }
}

impl Wiring for PairedWiring {
    const R: usize = 9;

    const P: [u8; 3] = [6, 6, 3];

    const Q: [[u8; 3]; 3] = [[1, 1, 2], [1, 1, 2], [1, 1, 1]];

    ghost R = { paired.count };

    ghost P = { paired.p };

    ghost Q = { paired.q };

    ghost described = { paired };

    ghost Parts = { PairedWords };

    ghost as_described = { (refl, refl, refl) };

    ghost tested = { paired_tested };

    ghost parts = { paired_words };

    fn run(r: usize) -> Run {
        if r >= Self::R {
            return Run::EMPTY;
        }
        let word = (word_of(r) * 32) as u8;
        if r < SINGLES {
            Run {
                low: word + (1 - r % 2) as u8 * 16,
                width: 16,
            }
        } else {
            Run {
                low: word,
                width: 32,
            }
        }
    }

    fn belongs(r: usize, class: u8) -> bool {
        if r < SINGLES {
            class < 2
        } else {
            r < Self::R && class == 2
        }
    }

    fn overlaps(r: usize, s: usize) -> bool {
        r < Self::R
            && s < Self::R
            && word_of(r) == word_of(s)
            && (r == s || r >= SINGLES || s >= SINGLES)
    }
}
