#![tactic(auto)]

ghost use Rattle.std.specs.Prelude.{◌≡◌, is_some, IfOk, nat_lt};

use chips::nested::Nested;
use chips::paired::Paired;
use registers::RegisterFile;
use std::alloc::{AllocError, Global};
use std::fmt;

const CLASSES: [(u8, &str); 3] = [(0, "byte"), (1, "half"), (2, "word")];

/// A register file as a table to read: its registers, then p and q.
#[derive(Drop)]
pub struct Listing<F>(pub F);

fn write_register<F: RegisterFile, W: fmt::Write>(
    file: &F,
    r: usize,
    f: &mut fmt::Formatter<W>,
) -> fmt::Result {
    let width = file.width(r);
    write!(f, "{r:>8} {width:>5}  ")?;
    for (class, name) in CLASSES {
        let name = if file.belongs(r, class) { name } else { "" };
        write!(f, "{name:<5}")?;
    }
    for s in (0..file.registers()).filter(|&s| file.overlaps(r, s)) {
        write!(f, " {s}")?;
    }
    writeln!(f)
}

fn write_class<F: RegisterFile, W: fmt::Write>(
    file: &F,
    b: u8,
    name: &str,
    f: &mut fmt::Formatter<W>,
) -> fmt::Result {
    let p = file.p(b);
    write!(f, "{name:<8} {p:>5}")?;
    for (c, _) in CLASSES {
        let q = file.q(b, c);
        write!(f, "  {q:>14}")?;
    }
    writeln!(f)
}

impl<F: RegisterFile> fmt::Display for Listing<F> {
    fn fmt<W: fmt::Write>(&self, f: &mut fmt::Formatter<W>) -> fmt::Result {
        writeln!(f, "register  bits  class           overlaps")?;
        for r in 0..self.0.registers() {
            write_register(&self.0, r, f)?;
        }
        writeln!(f)?;
        writeln!(
            f,
            "class        p  q(class, byte)  q(class, half)  q(class, word)"
        )?;
        for (b, name) in CLASSES {
            write_class(&self.0, b, name, f)?;
        }
        Ok(())
    }
}

/// The listing of chip 0, the nested, or 1, the paired; nothing for any other number.
pub fn chip_listing(heap: Global, chip: u8) -> Result<Option<String>, AllocError>
    ensures { IfOk result (λ text. is_some text ≡ nat_lt chip 2) }
{
    let text = match chip {
        0 => Listing(Nested::with_bits(0)).to_string(heap)?,
        1 => Listing(Paired::with_bits(0)).to_string(heap)?,
        _ => return Ok(None),
    };
    Ok(Some(text))
}

#[cfg(test)]
mod tests {
    use super::*;
    use std::test::Fail;

    #[test]
    fn nested(rt: HostRuntime) -> Result<(), Fail> {
        let text = chip_listing(rt.alloc(), 0)?.ok_or("no listing")?;
        assert_eq!(rt;
            text.as_str(),
            "register  bits  class           overlaps
       0    32            word  0 4 8 12
       1    32            word  1 5 9 13
       2    32            word  2 6 10 14
       3    32            word  3 7 11 15
       4    16       half       0 4 8 12
       5    16       half       1 5 9 13
       6    16       half       2 6 10 14
       7    16       half       3 7 11 15
       8     8  byte            0 4 8
       9     8  byte            1 5 9
      10     8  byte            2 6 10
      11     8  byte            3 7 11
      12     8  byte            0 4 12
      13     8  byte            1 5 13
      14     8  byte            2 6 14
      15     8  byte            3 7 15

class        p  q(class, byte)  q(class, half)  q(class, word)
byte         8               1               2               2
half         4               1               1               1
word         4               1               1               1
"
        );
        Ok(())
    }

    #[test]
    fn paired(rt: HostRuntime) -> Result<(), Fail> {
        let text = chip_listing(rt.alloc(), 1)?.ok_or("no listing")?;
        assert_eq!(rt;
            text.as_str(),
            "register  bits  class           overlaps
       0    16  byte half       0 6
       1    16  byte half       1 6
       2    16  byte half       2 7
       3    16  byte half       3 7
       4    16  byte half       4 8
       5    16  byte half       5 8
       6    32            word  0 1 6
       7    32            word  2 3 7
       8    32            word  4 5 8

class        p  q(class, byte)  q(class, half)  q(class, word)
byte         6               1               1               2
half         6               1               1               2
word         3               1               1               1
"
        );
        Ok(())
    }
}
