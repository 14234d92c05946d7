#![tactic(auto)]

ghost use Rattle.std.specs.Prelude.{◌≡◌, Some};
ghost use Rattle.faults.specs.declared.ProgramFault.TheVariants.{Rows};
ghost use Rattle.faults.specs.declared.RowFault.TheVariants.{Bits};
ghost use Rattle.faults.specs.Refusals.{bit_refusal, row_refusal, program_refusal, player_refusal, layer_name, refusal_text};

use std::fmt;

// Where in the work a refusal arose.
#[derive(Clone, Copy, Debug, PartialEq, Eq)]
pub enum Layer {
    Bits,
    Rows,
    Program,
    Player,
}

// A refusal as it is told: what was wrong, by number, where, and in which layer.
#[derive(Clone, Copy, Debug, PartialEq, Eq)]
pub struct Refusal {
    pub number: u8,
    pub place: u16,
    pub layer: Layer,
}

impl fmt::Display for Layer {
    ghost output = { λ layer. Some (layer_name layer) };

    fn fmt<W: fmt::Write>(&self, f: &mut fmt::Formatter<W>) -> fmt::Result {
        f.write_str(match self {
            Layer::Bits => "bits",
            Layer::Rows => "rows",
            Layer::Program => "program",
            Layer::Player => "player",
        })
    }
}

impl fmt::Display for Refusal {
    ghost output = { λ refusal. Some (refusal_text refusal) };

    fn fmt<W: fmt::Write>(&self, f: &mut fmt::Formatter<W>) -> fmt::Result {
        let Refusal {
            number,
            place,
            layer,
        } = *self;
        write!(f, "{number} {place} {layer}")
    }
}

// What may be wrong with a file as a row of bits.
#[derive(Clone, Copy, Debug, PartialEq, Eq)]
pub enum BitFault {
    Short,
    Long,
    Variables,
    RowCount,
    Class(u16),
    Fill,
}

// What may be wrong with a row.
#[derive(Clone, Copy, Debug, PartialEq, Eq)]
pub enum RowFault {
    Bits(BitFault),
    Opcode(u16),
    Unused(u16),
    Variable(u16),
    Classes(u16),
    Target(u16),
    Last(u16),
}

// What may be wrong with the rows together, or with the memory.
#[derive(Clone, Copy, Debug, PartialEq, Eq)]
pub enum ProgramFault {
    Rows(RowFault),
    Unreached(u16),
    Unwritten(u16),
    Memory(u16),
}

// What may be wrong with a call on a rehearsal. It stands alone.
#[derive(Clone, Copy, Debug, PartialEq, Eq)]
pub enum PlayerFault {
    Input,
    Asked,
}

impl From<BitFault> for RowFault {
    ghost from_gives = { λ x y. y ≡ Bits x };

    fn from(e: BitFault) -> RowFault {
        RowFault::Bits(e)
    }
}

impl From<RowFault> for ProgramFault {
    ghost from_gives = { λ x y. y ≡ Rows x };

    fn from(e: RowFault) -> ProgramFault {
        ProgramFault::Rows(e)
    }
}

impl From<BitFault> for Refusal {
    ghost from_gives = { λ fault refusal. refusal ≡ bit_refusal fault };

    fn from(fault: BitFault) -> Refusal {
        let (number, place) = match fault {
            BitFault::Short => (1, 0),
            BitFault::Long => (2, 0),
            BitFault::Variables => (3, 0),
            BitFault::RowCount => (4, 0),
            BitFault::Class(variable) => (5, variable),
            BitFault::Fill => (6, 0),
        };
        Refusal {
            number,
            place,
            layer: Layer::Bits,
        }
    }
}

impl From<RowFault> for Refusal {
    ghost from_gives = { λ fault refusal. refusal ≡ row_refusal fault };

    fn from(fault: RowFault) -> Refusal {
        let (number, place) = match fault {
            RowFault::Bits(fault) => return fault.into(),
            RowFault::Opcode(row) => (7, row),
            RowFault::Unused(row) => (8, row),
            RowFault::Variable(row) => (9, row),
            RowFault::Classes(row) => (10, row),
            RowFault::Target(row) => (11, row),
            RowFault::Last(row) => (12, row),
        };
        Refusal {
            number,
            place,
            layer: Layer::Rows,
        }
    }
}

impl From<ProgramFault> for Refusal {
    ghost from_gives = { λ fault refusal. refusal ≡ program_refusal fault };

    fn from(fault: ProgramFault) -> Refusal {
        let (number, place) = match fault {
            ProgramFault::Rows(fault) => return fault.into(),
            ProgramFault::Unreached(row) => (13, row),
            ProgramFault::Unwritten(row) => (14, row),
            ProgramFault::Memory(part) => (15, part),
        };
        Refusal {
            number,
            place,
            layer: Layer::Program,
        }
    }
}

impl From<PlayerFault> for Refusal {
    ghost from_gives = { λ fault refusal. refusal ≡ player_refusal fault };

    fn from(fault: PlayerFault) -> Refusal {
        let number = match fault {
            PlayerFault::Input => 16,
            PlayerFault::Asked => 17,
        };
        Refusal {
            number,
            place: 0,
            layer: Layer::Player,
        }
    }
}
