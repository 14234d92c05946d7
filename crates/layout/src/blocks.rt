ghost use Rattle.std.specs.Prelude.{◌≤◌, length};

use lists::Few;
use rows::Row;

// Blocks in a line, as far as there is room: the rows of all of them, and where each one starts.
#[derive(Clone, Copy)]
pub struct Layout {
    pub rows: Few<Row, 512>,
    pub starts: Few<u16, 512>,
    ghost few: { (length rows ≤ 512) × (length starts ≤ 512) },
}
