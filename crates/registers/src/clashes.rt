ghost use Rattle.std.specs.Prelude.{◌≡◌, ◌&&◌};
ghost use Rattle.registers.specs.Model.{clashes as clashes_of, FewClashes, QAttained};

use crate::RegisterFile;

fn clash<F: RegisterFile>(file: &F, r: usize, s: usize, class: u8) -> bool
    ensures { result ≡ ((F.RegisterFile.model file.now).belongs s class && (F.RegisterFile.model file.now).overlaps r s) }
{
    file.belongs(s, class) && file.overlaps(r, s)
}

/// How many registers of a class register `r` overlaps: at most `q(class, c)` if `r` is of class `c`.
pub fn count_clashes<F: RegisterFile>(file: &F, r: usize, class: u8) -> u8
    ensures counted { result ≡ clashes_of (F.RegisterFile.model file.now) class r }
    ensures few { FewClashes (F.RegisterFile.model file.now) }
    ensures attained { QAttained (F.RegisterFile.model file.now) }
{
    (0..file.registers())
        .filter(|&s| clash(file, r, s, class))
        .count() as u8
}
