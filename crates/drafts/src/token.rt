ghost use Rattle.std.specs.Prelude.{◌≡◌, length};

use sets::NodeSet;

// How a round ended, in plain numbers: the node of each variable, the register of each node (the number of registers
// stands for none), the nodes that found none, and those removed in hope.
#[derive(Clone, Copy)]
pub struct Colouring {
    pub node: [u16; 448],
    pub registers: [u8; 448],
    pub spilled: NodeSet,
    pub hoped: NodeSet,
    ghost whole: { (length node ≡ 448) × (length registers ≡ 448) },
}

// What a round that spilled asks for: the source variables that go out, the slot of each, those whose nodes were hoped,
// and the slots given then.
#[derive(Clone, Copy)]
pub struct Token {
    pub out: NodeSet,
    pub hoped: NodeSet,
    pub slots: [u8; 64],
    pub given: u8,
    ghost whole: { length slots ≡ 64 },
}
