ghost use Rattle.std.specs.Prelude.{◌≤◌, length};
ghost use Rattle.rows.specs.Lines.{Tame};

use crate::Row;

// The rows of a working program: few, with the weights of a source file, and writing only what a node set can hold.
#[derive(Clone, Copy)]
pub struct Lines<'a> {
    pub rows: &'a [Row],
    ghost few: { length rows.now ≤ 512 },
    ghost tame: { Tame rows.now },
}
