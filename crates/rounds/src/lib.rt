#![tactic(auto)]

ghost use Rattle.rounds.specs.Liveness.{LiveLeast};

// A node as it was removed: because it passed the test, or in the hope that a register will be free.
#[derive(Clone, Copy)]
pub struct Removed {
    pub node: u16,
    pub hoped: bool,
}

// The node with the least cost over pressure among those looked at.
#[derive(Clone, Copy)]
pub struct Offer {
    pub node: u16,
    pub cost: u32,
    pub pressure: u32,
}

// The two ends of a copy.
#[derive(Clone, Copy)]
pub struct Ends {
    pub d: u16,
    pub a: u16,
}

// What is called live is the least solution of the equations of liveness.
pub fn liveness_is_least()
    ensures { LiveLeast }
{}
