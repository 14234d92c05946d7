ghost use Rattle.std.specs.Prelude.{◌≡◌, ◌≤◌, length};

use rows::Row;

// A source program as a file gives it: the first `vars` of the classes and the first `count` of the rows.
// Its memory is fixed, for the compiler has no heap.
#[derive(Clone, Copy)]
pub struct Source {
    pub vars: usize,
    pub count: usize,
    pub classes: [u8; 64],
    pub rows: [Row; 128],
    ghost few: { vars ≤ 64 },
    ghost some: { 1 ≤ count },
    ghost most: { count ≤ 128 },
    ghost whole: { (length classes ≡ 64) × (length rows ≡ 128) },
}
