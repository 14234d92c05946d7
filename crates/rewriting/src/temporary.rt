ghost use Rattle.std.specs.Prelude.{◌≡◌};
ghost use Rattle.compiling.specs.Rewrite.{load_row, store_row};

use rows::{Op, Row};

// A temporary that stands for a variable in one row: its number and class, and the slot of the variable.
#[derive(Clone, Copy)]
pub struct Temporary {
    pub number: u16,
    pub class: u8,
    pub slot: u8,
}

// The temporaries of a row: those that stand for a, b and d.
#[derive(Clone, Copy)]
pub struct Temporaries {
    pub a: Option<Temporary>,
    pub b: Option<Temporary>,
    pub d: Option<Temporary>,
}

impl Temporary {
    pub fn load(self, weight: u8) -> Row
        ensures { result ≡ load_row weight self.class self.number self.slot }
    {
        Row {
            op: Op::Load,
            weight,
            dclass: self.class,
            d: self.number,
            slot: self.slot,
            ..Row::END
        }
    }

    pub fn store(self, weight: u8) -> Row
        ensures { result ≡ store_row weight self.class self.number self.slot }
    {
        Row {
            op: Op::Store,
            weight,
            aclass: self.class,
            a: self.number,
            slot: self.slot,
            ..Row::END
        }
    }
}
