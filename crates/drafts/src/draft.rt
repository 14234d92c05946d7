ghost use Rattle.std.specs.Prelude.{◌≡◌, ◌≤◌, length};

use compiling::Place;
use lists::Few;
use rows::Row;
use source::program::Source;

// A program on its way from source to code: its rows, the classes of its variables, and the places of the source's
// variables. A coloured one has the register of each variable too; before that, what stands there counts for nothing.
#[derive(Clone, Copy)]
pub struct Draft {
    pub source: Source,
    pub rows: Few<Row, 512>,
    pub classes: Few<u8, 448>,
    pub registers: Few<u8, 448>,
    pub rounds: u8,
    pub slots: u8,
    pub places: Few<Place, 64>,
    ghost few: { (length rows ≤ 512) × (length classes ≤ 448) },
    ghost whole: { (length registers ≡ length classes) × (length places ≡ source.vars) },
}
