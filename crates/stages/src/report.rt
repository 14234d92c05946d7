ghost use Rattle.std.specs.Prelude.{◌≡◌, length, if◌then◌else◌, Some, None, nat_lt, slice_index};
ghost use Rattle.rows.specs.Rows.{row_at};
ghost use Rattle.compiling.specs.Working.{place_of};
ghost use Rattle.stages.specs.Stages.{program_in, compiled_in};

use crate::Record;
use crate::states::{Admitted, Compiled};
use compiling::Place;
use rows::Row;

impl Record {
    fn vars(&self) -> usize
        ensures { result ≡ (program_in self.now).vars }
    {
        self.draft.source.vars
    }

    fn count(&self) -> usize
        ensures { result ≡ length (program_in self.now).rows }
    {
        self.draft.source.count
    }

    fn class(&self, v: usize) -> Option<u8>
        ensures { result ≡ (if nat_lt v (program_in self.now).vars then Some (slice_index (program_in self.now).classes v) else None) }
    {
        self.draft.source.classes[..self.draft.source.vars]
            .get(v)
            .copied()
    }

    fn row(&self, i: usize) -> Option<Row>
        ensures { result ≡ (if nat_lt i (length (program_in self.now).rows) then Some (row_at (program_in self.now).rows i) else None) }
    {
        self.source_rows().get(i).copied()
    }
}

impl Record {
    fn source_rows(&self) -> &[Row]
        ensures { result.now ≡ (program_in self.now).rows }
    {
        &self.draft.source.rows[..self.draft.source.count]
    }

    fn code(&self) -> &[Row]
        ensures { result.now ≡ (compiled_in self.now).rows }
    {
        self.draft.rows()
    }

    fn places(&self) -> &[Place]
        ensures { result.now ≡ (compiled_in self.now).places }
    {
        self.draft.places.as_slice()
    }

    fn place(&self, v: usize) -> Option<Place>
        ensures { result ≡ (if nat_lt v (compiled_in self.now).source.vars then Some (place_of (compiled_in self.now).places v) else None) }
    {
        (v < self.vars()).then(|| self.draft.place_of(v))
    }
}

// Each state tells what it has, by one call of its record: what both have stands in both, for a state lends its record to
// nobody.
impl<'a> Admitted<'a> {
    pub fn vars(&self) -> usize
        ensures { result ≡ (program_in self.now.record.now).vars }
    {
        self.record.vars()
    }

    // How many rows the source program has.
    pub fn count(&self) -> usize
        ensures { result ≡ length (program_in self.now.record.now).rows }
    {
        self.record.count()
    }

    // The class of variable v of the source; none for a number that is no variable.
    pub fn class(&self, v: usize) -> Option<u8>
        ensures { result ≡ (if nat_lt v (program_in self.now.record.now).vars then Some (slice_index (program_in self.now.record.now).classes v) else None) }
    {
        self.record.class(v)
    }

    // All rows of the source.
    pub fn source_rows(&self) -> &[Row]
        ensures { result.now ≡ (program_in self.now.record.now).rows }
    {
        self.record.source_rows()
    }

    // Row i of the source; none for a number that is no row.
    pub fn row(&self, i: usize) -> Option<Row>
        ensures { result ≡ (if nat_lt i (length (program_in self.now.record.now).rows) then Some (row_at (program_in self.now.record.now).rows i) else None) }
    {
        self.record.row(i)
    }
}

// The report of a compiled program.
impl<'a> Compiled<'a> {
    // How many variables the source has.
    pub fn vars(&self) -> usize
        ensures { result ≡ (compiled_in self.now.record.now).source.vars }
    {
        self.record.vars()
    }

    // The class of variable v; none for a number that is no variable.
    pub fn class(&self, v: usize) -> Option<u8>
        ensures { result ≡ (if nat_lt v (compiled_in self.now.record.now).source.vars then Some (slice_index (compiled_in self.now.record.now).source.classes v) else None) }
    {
        self.record.class(v)
    }

    // Where variable v stands: register or slot, its number, the round that gave it, and the mark of its node then;
    // none for a number that is no variable.
    pub fn place(&self, v: usize) -> Option<Place>
        ensures { result ≡ (if nat_lt v (compiled_in self.now.record.now).source.vars then Some (place_of (compiled_in self.now.record.now).places v) else None) }
    {
        self.record.place(v)
    }

    // All rows of the source.
    pub fn source_rows(&self) -> &[Row]
        ensures { result.now ≡ (compiled_in self.now.record.now).source.rows }
    {
        self.record.source_rows()
    }

    // All rows of the code.
    pub fn code(&self) -> &[Row]
        ensures { result.now ≡ (compiled_in self.now.record.now).rows }
    {
        self.record.code()
    }

    // The places of all variables, in order.
    pub fn places(&self) -> &[Place]
        ensures { result.now ≡ (compiled_in self.now.record.now).places }
    {
        self.record.places()
    }

    // How many rounds it took, the colouring one included.
    pub fn rounds(&self) -> u8
        ensures { result ≡ (compiled_in self.now.record.now).rounds }
    {
        self.record.draft.rounds
    }

    // How many slots were given.
    pub fn slots(&self) -> u8
        ensures { result ≡ (compiled_in self.now.record.now).slots }
    {
        self.record.draft.slots
    }
}
