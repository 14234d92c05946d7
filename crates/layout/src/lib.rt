#![tactic(auto)]

pub mod blocks;

ghost use Rattle.std.specs.Prelude.{◌≡◌, ◌≤◌, [], ◌∷◌, ◌++◌, map, length, take, slice_index};
ghost use Rattle.compiling.specs.Blocks.{moved as moved_by};

use blocks::Layout;
use lists::Few;
use rows::Row;

impl Layout {
    pub fn new() -> Layout
        ensures rows { result.rows ≡ [] }
        ensures starts { result.starts ≡ [] }
    {
        Layout {
            rows: Few::new(),
            starts: Few::new(),
        }
    }

    // Begins a block behind the rows so far.
    pub fn open(&mut self)
        ensures rows { self.new.rows ≡ self.old.rows }
        ensures starts { self.new.starts ≡ take 512 (self.old.starts ++ length self.old.rows ∷ []) }
    {
        self.starts.push(self.rows.len() as u16);
    }

    // Adds a row to the last block, if there is room.
    pub fn push(&mut self, row: Row)
        ensures rows { self.new.rows ≡ take 512 (self.old.rows ++ row ∷ []) }
        ensures starts { self.new.starts ≡ self.old.starts }
    {
        self.rows.push(row);
    }

    // The rows with their targets moved to the starts of blocks.
    pub fn moved(&self) -> Few<Row, 512>
        ensures rows { result ≡ map (moved_by self.now.starts) self.now.rows }
        ensures fits { length result ≤ 512 }
    {
        let mut moved = Few::new();
        for row in self.rows.as_slice() {
            moved.push(self.moved_row(*row));
        }
        moved
    }

    fn moved_row(&self, row: Row) -> Row
        ensures { result ≡ moved_by self.now.starts row }
    {
        Row {
            target: row.target_row().map_or(0, |target| self.start(target)),
            ..row
        }
    }

    // Where block i starts, or 0 past the last.
    fn start(&self, i: u16) -> u16
        ensures { result ≡ slice_index self.now.starts i }
    {
        self.starts.as_slice().get(i as usize).copied().unwrap_or(0)
    }
}
