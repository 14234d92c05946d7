#![tactic(auto)]

ghost use Rattle.std.specs.Prelude.{◌≡◌};
ghost use Rattle.machine.specs.Machine.{number_of, is_running as is_running_of};

// How a player stands: running, or ended at an end row, at an input row with nothing left, at an output row when 256 are out.
#[derive(Clone, Copy, PartialEq, Eq)]
pub enum Outcome {
    Running = 0,
    Ended = 1,
    Starved = 2,
    Full = 3,
}

// How a player stands after a play: the rows played, and the outcome.
#[derive(Clone, Copy, PartialEq, Eq)]
pub struct Played {
    pub rows: u32,
    pub outcome: Outcome,
}

impl Outcome {
    pub fn number(self) -> u8
        ensures { result ≡ number_of self }
    {
        self as u8
    }

    pub fn is_running(self) -> bool
        ensures { result ≡ is_running_of self }
    {
        self == Outcome::Running
    }
}
