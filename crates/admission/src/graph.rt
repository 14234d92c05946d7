ghost use Rattle.std.specs.Prelude.{◌≤◌, length};

use rows::Row;

// The rows of a program, with the ways from row to row. The lines of a working program are rows too, but tame ones, which those
// of a source file need not be.
#[derive(Clone, Copy)]
pub struct Graph<'a> {
    pub rows: &'a [Row],
    ghost few: { length rows.now ≤ 512 },
}
