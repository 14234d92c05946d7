ghost use Rattle.std.specs.Prelude.{◌≤◌, length};

use layout::blocks::Layout;
use lists::Few;

// A program while it is rewritten: its blocks, and the classes of variables and temporaries as far as there is room.
// `next` is the number of the next temporary.
#[derive(Clone, Copy)]
pub struct Page {
    pub layout: Layout,
    pub next: u16,
    pub classes: Few<u8, 448>,
    ghost few: { length classes ≤ 448 },
}
