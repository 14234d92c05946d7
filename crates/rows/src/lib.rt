#![tactic(auto)]

pub mod lines;

ghost use Rattle.std.specs.Prelude.{◌≡◌, nat_lt};
ghost use Rattle.std.specs.Iterator.{YieldsFirst, item_count};
ghost use Rattle.std.specs.Option.{option_map_or};
ghost use Rattle.sets.specs.Sets.{union, single, when};
ghost use Rattle.sets.specs.Words.{members};
ghost use Rattle.rows.specs.Rows.{shape as shape_of, copies as copies_of, opcode as opcode_of, fits as fits_of, reads as reads_of, writes as writes_of, next as next_of, set_of, used, op_in_source, rows_left};

use lists::Blank;
use sets::NodeSet;

// What a row does, by the number of its opcode. Loads and stores stand in compiled code only.
#[derive(Clone, Copy, PartialEq, Eq)]
pub enum Op {
    End = 0,
    Const = 1,
    Copy = 2,
    Add = 3,
    Sub = 4,
    And = 5,
    Xor = 6,
    Widen = 7,
    Narrow = 8,
    Input = 9,
    Output = 10,
    Jump = 11,
    Less = 12,
    Load = 14,
    Store = 15,
}

// Which fields an opcode uses, and whether the row below may follow it.
#[derive(Clone, Copy)]
pub struct Shape {
    pub d: bool,
    pub a: bool,
    pub b: bool,
    pub constant: bool,
    pub target: bool,
    pub slot: bool,
    pub falls: bool,
}

const END: Shape = Shape {
    d: false,
    a: false,
    b: false,
    constant: false,
    target: false,
    slot: false,
    falls: false,
};

const CONST: Shape = Shape {
    d: true,
    constant: true,
    falls: true,
    ..END
};

const UNARY: Shape = Shape {
    d: true,
    a: true,
    falls: true,
    ..END
};

const BINARY: Shape = Shape {
    d: true,
    a: true,
    b: true,
    falls: true,
    ..END
};

const INPUT: Shape = Shape {
    d: true,
    falls: true,
    ..END
};

const OUTPUT: Shape = Shape {
    a: true,
    falls: true,
    ..END
};

const JUMP: Shape = Shape {
    target: true,
    ..END
};

const LESS: Shape = Shape {
    a: true,
    b: true,
    target: true,
    falls: true,
    ..END
};

const LOAD: Shape = Shape {
    d: true,
    slot: true,
    falls: true,
    ..END
};

const STORE: Shape = Shape {
    a: true,
    slot: true,
    falls: true,
    ..END
};

// A number that no opcode of a source file has.
#[derive(Clone, Copy, Debug, PartialEq, Eq)]
pub struct UnknownOpcode(pub u16);

impl TryFrom<u16> for Op {
    type Error = UnknownOpcode;

    ghost try_from_gives = { λ n read. read ≡ op_in_source n };

    fn try_from(n: u16) -> Result<Op, UnknownOpcode> {
        let op = match n {
            0 => Op::End,
            1 => Op::Const,
            2 => Op::Copy,
            3 => Op::Add,
            4 => Op::Sub,
            5 => Op::And,
            6 => Op::Xor,
            7 => Op::Widen,
            8 => Op::Narrow,
            9 => Op::Input,
            10 => Op::Output,
            11 => Op::Jump,
            12 => Op::Less,
            _ => return Err(UnknownOpcode(n)),
        };
        Ok(op)
    }
}

impl Op {
    pub fn shape(self) -> Shape
        ensures { result ≡ shape_of self }
    {
        match self {
            Op::End => END,
            Op::Const => CONST,
            Op::Copy | Op::Widen | Op::Narrow => UNARY,
            Op::Add | Op::Sub | Op::And | Op::Xor => BINARY,
            Op::Input => INPUT,
            Op::Output => OUTPUT,
            Op::Jump => JUMP,
            Op::Less => LESS,
            Op::Load => LOAD,
            Op::Store => STORE,
        }
    }

    pub fn opcode(self) -> u8
        ensures { result ≡ opcode_of self }
    {
        self as u8
    }

    // Whether the classes of d, a and b suit the opcode.
    pub fn fits(self, d: u8, a: u8, b: u8) -> bool
        ensures { result ≡ fits_of self d a b }
    {
        match self {
            Op::Copy => d == a,
            Op::Add | Op::Sub | Op::And | Op::Xor => d == a && a == b,
            Op::Widen => a < d,
            Op::Narrow => d < a,
            Op::Less => a == b,
            _ => true,
        }
    }

    pub fn copies(self) -> bool
        ensures { result ≡ copies_of self }
    {
        self == Op::Copy
    }
}

// A row of a source program, a working program or compiled code: in code, registers stand for variables.
// What the opcode does not use is 0. `dclass` is the class of d, `aclass` that of a and b.
// A class stays a number, for a register file is asked about every number.
#[derive(Clone, Copy)]
pub struct Row {
    pub op: Op,
    pub weight: u8,
    pub dclass: u8,
    pub aclass: u8,
    pub d: u16,
    pub a: u16,
    pub b: u16,
    pub target: u16,
    pub constant: u16,
    pub slot: u8,
}

// The rows that a row may go on to, its target before the row below.
#[derive(Clone, Copy)]
pub struct Ways {
    pub target: Option<usize>,
    pub below: Option<usize>,
}

impl Iterator for Ways {
    type Item = usize;

    ghost next_gives = { YieldsFirst rows_left };

    ghost remaining = { item_count rows_left };

    fn next(&mut self) -> Option<usize> {
        match self.target.take() {
            None => self.below.take(),
            target => target,
        }
    }
}

impl Blank for Row {
    ghost use Rattle.rows.specs.Rows.{end_row};

    ghost blank_value = { end_row };

    fn blank() -> Row {
        Row::END
    }
}

impl Row {
    pub const END: Row = Row {
        op: Op::End,
        weight: 0,
        dclass: 0,
        aclass: 0,
        d: 0,
        a: 0,
        b: 0,
        target: 0,
        constant: 0,
        slot: 0,
    };

    // The variable that the row writes.
    pub fn written(self) -> Option<u16>
        ensures { result ≡ used (shape_of self.op).d self.d }
    {
        self.op.shape().d.then_some(self.d)
    }

    // The variable that the row reads first.
    pub fn first_read(self) -> Option<u16>
        ensures { result ≡ used (shape_of self.op).a self.a }
    {
        self.op.shape().a.then_some(self.a)
    }

    // The variable that the row reads second.
    pub fn second_read(self) -> Option<u16>
        ensures { result ≡ used (shape_of self.op).b self.b }
    {
        self.op.shape().b.then_some(self.b)
    }

    // The row that the row may jump to.
    pub fn target_row(self) -> Option<u16>
        ensures { result ≡ used (shape_of self.op).target self.target }
    {
        self.op.shape().target.then_some(self.target)
    }

    // The constant that the row carries.
    pub fn constant_given(self) -> Option<u16>
        ensures { result ≡ used (shape_of self.op).constant self.constant }
    {
        self.op.shape().constant.then_some(self.constant)
    }

    // The slot that the row loads or stores.
    pub fn slot_used(self) -> Option<u8>
        ensures { result ≡ used (shape_of self.op).slot self.slot }
    {
        self.op.shape().slot.then_some(self.slot)
    }

    pub fn reads(self) -> NodeSet
        ensures { members result ≡ set_of (reads_of self) }
    {
        with(
            with(NodeSet::empty(), self.second_read()),
            self.first_read(),
        )
    }

    pub fn writes(self) -> NodeSet
        ensures { members result ≡ set_of (writes_of self) }
    {
        with(NodeSet::empty(), self.written())
    }

    // The rows that may follow this one, which stands at row i: its target before the row below.
    pub fn next(self, i: u16) -> Ways
        ensures { rows_left result ≡ next_of i self }
    {
        Ways {
            target: self.target_row().map(usize::from),
            below: self.op.shape().falls.then_some(i as usize + 1),
        }
    }
}

// The set with the variable too, if there is one.
fn with(set: NodeSet, variable: Option<u16>) -> NodeSet
    ensures { members result ≡ option_map_or (λ v. union (members set) (when (nat_lt v 448) (single v))) variable (members set) }
{
    variable.map_or(set, |v| set.with(v as usize))
}
