#![tactic(auto)]

ghost use Rattle.std.specs.Prelude.{◌≡◌};
ghost use Rattle.compiling.specs.Working.{no_place, is_slot as is_slot_of, number_of};

use lists::Blank;

// Where a variable stands: nowhere as long as no round has placed it, else in a register or a slot, each with its number.
#[derive(Clone, Copy, PartialEq, Eq)]
pub enum Home {
    Open,
    Register(u8),
    Slot(u8),
}

impl Home {
    // The number of the register or the slot; 0 where there is none.
    pub fn number(self) -> u8
        ensures { result ≡ number_of self }
    {
        match self {
            Home::Open => 0,
            Home::Register(number) | Home::Slot(number) => number,
        }
    }
}

// The report of a variable: its home, the round that gave it, and whether its node was hoped.
#[derive(Clone, Copy, PartialEq, Eq)]
pub struct Place {
    pub home: Home,
    pub round: u8,
    pub hoped: bool,
}

impl Blank for Place {
    ghost use Rattle.compiling.specs.Working.{no_place};

    ghost blank_value = { no_place };

    fn blank() -> Place {
        Place::OPEN
    }
}

impl Place {
    // The place of a variable that no round has placed.
    pub const OPEN: Place = Place {
        home: Home::Open,
        round: 0,
        hoped: false,
    };

    pub fn is_slot(self) -> bool
        ensures { result ≡ is_slot_of self.home }
    {
        matches!(self.home, Home::Slot(_))
    }
}
