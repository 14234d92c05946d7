#![tactic(auto)]

ghost use Rattle.std.specs.Prelude.{◌≡◌};
ghost use Rattle.faults.specs.Refusals.{program_refusal};
ghost use Rattle.reports.specs.Names.{class_name as class_name_of, op_name as op_name_of};
ghost use Rattle.reports.specs.Fields.{fields as fields_of};
ghost use Rattle.reports.specs.Places.{bit_place as bit_place_of, row_place as row_place_of, place_of, place_number, row_bytes as row_bytes_of};

use faults::{BitFault, ProgramFault, Refusal, RowFault};
use rows::{Op, Row as SourceRow};
use stages::states::Admitted;
use std::fmt;

// Where a fault lies, as a person looks for it.
#[derive(Clone, Copy)]
pub enum Place {
    File,
    Variable(u16),
    Row(u16),
    Part(u16),
}

fn bit_place(fault: BitFault) -> Place
    ensures { result ≡ bit_place_of fault }
{
    match fault {
        BitFault::Class(variable) => Place::Variable(variable),
        _ => Place::File,
    }
}

fn row_place(fault: RowFault) -> Place
    ensures { result ≡ row_place_of fault }
{
    match fault {
        RowFault::Bits(fault) => bit_place(fault),
        RowFault::Opcode(row)
        | RowFault::Unused(row)
        | RowFault::Variable(row)
        | RowFault::Classes(row)
        | RowFault::Target(row)
        | RowFault::Last(row) => Place::Row(row),
    }
}

// Where a fault lies; its number is that of the refusal.
pub fn place_of(fault: ProgramFault) -> Place
    ensures place { result ≡ place_of fault }
    ensures number { place_number result ≡ (program_refusal fault).place }
{
    match fault {
        ProgramFault::Rows(fault) => row_place(fault),
        ProgramFault::Unreached(row) | ProgramFault::Unwritten(row) => Place::Row(row),
        ProgramFault::Memory(part) => Place::Part(part),
    }
}

impl fmt::Display for Place {
    fn fmt<W: fmt::Write>(&self, f: &mut fmt::Formatter<W>) -> fmt::Result {
        match *self {
            Place::File => write!(f, "the file"),
            Place::Variable(variable) => write!(f, "variable v{variable}"),
            Place::Row(row) => write!(f, "row {row}"),
            Place::Part(part) => write!(f, "part {part} of the working memory"),
        }
    }
}

// The bytes of row i, as far as the file has them.
pub fn row_bytes(file: &[u8], i: u16) -> &[u8]
    ensures { result.now ≡ row_bytes_of file.now i }
{
    let vars = file.first().copied().unwrap_or(0) as usize;
    let start = 2 + (2 * vars + 7) / 8 + 4 * i as usize;
    let rest = file.get(start..).unwrap_or(&[]);
    rest.get(..4).unwrap_or(rest)
}

// A cause in words, by layers; a Display for each would be the same match with a write around it.
fn bit_cause(fault: BitFault) -> &'static str {
    match fault {
        BitFault::Short => "the file is too short for its variables and rows",
        BitFault::Long => "bytes are left over behind the last row",
        BitFault::Variables => "the file has more than 64 variables",
        BitFault::RowCount => "the number of rows is not 1 to 128",
        BitFault::Class(_) => "its class is 3, and classes are 0 (byte), 1 (half) and 2 (word)",
        BitFault::Fill => "the bits that fill the last byte of classes are not all zero",
    }
}

fn row_cause(fault: RowFault) -> &'static str {
    match fault {
        RowFault::Bits(fault) => bit_cause(fault),
        RowFault::Opcode(_) => "the opcode is above 12",
        RowFault::Unused(_) => "a field that the opcode does not use is not zero",
        RowFault::Variable(_) => "an operand is no variable of the program",
        RowFault::Classes(_) => "the classes of the operands do not fit the opcode",
        RowFault::Target(_) => "the target is no row of the program",
        RowFault::Last(_) => "the last row is neither an end nor a jump",
    }
}

fn cause(fault: ProgramFault) -> &'static str {
    match fault {
        ProgramFault::Rows(fault) => row_cause(fault),
        ProgramFault::Unreached(_) => "the row cannot be reached from row 0",
        ProgramFault::Unwritten(_) =>
            "the row reads a variable that may not have been written before",
        ProgramFault::Memory(_) => "the working memory is too short",
    }
}

// Why a file was refused, for a person to read.
#[derive(Drop)]
pub struct Explained<'a> {
    pub fault: ProgramFault,
    pub file: &'a [u8],
}

impl fmt::Display for Explained<'_> {
    fn fmt<W: fmt::Write>(&self, f: &mut fmt::Formatter<W>) -> fmt::Result {
        let Refusal { number, layer, .. } = self.fault.into();
        let place = place_of(self.fault);
        let cause = cause(self.fault);
        write!(
            f,
            "refused with fault {number} of the layer {layer}, at {place}"
        )?;
        if let Place::Row(i) = place {
            write!(f, ", bytes")?;
            for byte in row_bytes(self.file, i) {
                write!(f, " {byte:02x}")?;
            }
        }
        write!(f, "\n  {cause}\n")
    }
}

// The name of a class: a text, for a text fills up its column by itself.
pub fn class_name(class: u8) -> &'static str
    ensures { result.now ≡ class_name_of class }
{
    match class {
        0 => "byte",
        1 => "half",
        2 => "word",
        _ => "no class",
    }
}

// The name of an opcode: a text, for a text fills up its column by itself.
pub fn op_name(op: Op) -> &'static str
    ensures { result.now ≡ op_name_of op }
{
    match op {
        Op::End => "end",
        Op::Const => "const",
        Op::Copy => "copy",
        Op::Add => "add",
        Op::Sub => "sub",
        Op::And => "and",
        Op::Xor => "xor",
        Op::Widen => "widen",
        Op::Narrow => "narrow",
        Op::Input => "input",
        Op::Output => "output",
        Op::Jump => "jump",
        Op::Less => "less",
        Op::Load => "load",
        Op::Store => "store",
    }
}

// A field of a row that is in use: a variable or a register with its class, a constant, a target or a slot.
#[derive(Clone, Copy)]
pub enum Field {
    Operand(u16, u8),
    Constant(u16),
    Target(u16),
    Slot(u8),
}

// The fields of a row that are in use, in order.
pub fn fields(row: SourceRow) -> [Option<Field>; 6]
    ensures { result ≡ fields_of row }
{
    let shape = row.op.shape();
    [
        shape.d.then_some(Field::Operand(row.d, row.dclass)),
        shape.a.then_some(Field::Operand(row.a, row.aclass)),
        shape.b.then_some(Field::Operand(row.b, row.aclass)),
        shape.constant.then_some(Field::Constant(row.constant)),
        shape.target.then_some(Field::Target(row.target)),
        shape.slot.then_some(Field::Slot(row.slot)),
    ]
}

// A row as text, its operands behind a letter: v for variables, r for registers.
#[derive(Clone, Copy)]
pub struct Spelled {
    pub letter: char,
    pub row: SourceRow,
}

impl fmt::Display for Spelled {
    fn fmt<W: fmt::Write>(&self, f: &mut fmt::Formatter<W>) -> fmt::Result {
        let Spelled { letter, row } = *self;
        let name = op_name(row.op);
        match row.op {
            Op::End => write!(f, "{name}")?,
            _ => write!(f, "{name:<6}")?,
        }
        for field in fields(row).iter().flatten() {
            match *field {
                Field::Operand(number, class) => {
                    let class = class_name(class);
                    write!(f, " {letter}{number}:{class}")?
                }
                Field::Constant(constant) => write!(f, " {constant}")?,
                Field::Target(target) => write!(f, " row {target}")?,
                Field::Slot(slot) => write!(f, " s{slot}")?,
            }
        }
        Ok(())
    }
}

// The rows of a program as a table to read.
#[derive(Drop)]
pub struct Rows<'a, 'b> {
    pub program: &'a Admitted<'b>,
}

impl fmt::Display for Rows<'_, '_> {
    fn fmt<W: fmt::Write>(&self, f: &mut fmt::Formatter<W>) -> fmt::Result {
        writeln!(f, "  row  weight  opcode and operands")?;
        for (i, row) in self.program.source_rows().iter().enumerate() {
            let weight = row.weight;
            let text = Spelled {
                letter: 'v',
                row: *row,
            };
            writeln!(f, "{i:>5} {weight:>7}  {text}")?;
        }
        Ok(())
    }
}
