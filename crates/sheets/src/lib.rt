#![tactic(auto)]

ghost use Rattle.std.specs.Prelude.{◌≡◌, ◌&&◌};
ghost use Rattle.rows.specs.Rows.{row_at};
ghost use Rattle.compiling.specs.Working.{is_slot, place_of};
ghost use Rattle.sheets.specs.Blocks.{together as together_of, idle as idle_of, loads as loads_of, origin as origin_of, carries as carries_of, kept as kept_of, block_at, block_of};

use compiling::{Home, Place};
use reports::{Field, Spelled, class_name, fields, op_name};
use rows::Row;
use stages::states::Compiled;
use std::fmt;

// What of the code stands for a row of the source: loads, the row itself unless it was dropped, a store.
#[derive(Clone, Copy)]
pub struct Block {
    pub loads: u8,
    pub kept: bool,
    pub store: bool,
}

impl Block {
    const NONE: Block = Block {
        loads: 0,
        kept: false,
        store: false,
    };
}

fn place_at(places: &[Place], v: u16) -> Place
    ensures { result ≡ place_of places.now v }
{
    places.get(v as usize).copied().unwrap_or(Place::OPEN)
}

fn row_at(rows: &[Row], i: usize) -> Row
    ensures { result ≡ row_at rows.now i }
{
    rows.get(i).copied().unwrap_or(Row::END)
}

// Whether two variables stand in one register or in one slot.
fn together(p: Place, q: Place) -> bool
    ensures { result ≡ together_of p q }
{
    p.home.number() == q.home.number() && p.is_slot() == q.is_slot()
}

// Whether a field is in use and names a spilled variable.
fn spilled(used: bool, place: Place) -> bool
    ensures { result ≡ used && is_slot place.home }
{
    used && place.is_slot()
}

// Whether a row of code copies from a register to where a variable stands.
fn carries(row: Row, from: u16, to: Place) -> bool
    ensures { result ≡ carries_of row from to }
{
    row.op.copies() && row.a == from && (to.is_slot() || row.d == to.home.number() as u16)
}

// A row of the source with the places of its variables.
#[derive(Clone, Copy)]
struct Placed {
    row: Row,
    d: Place,
    a: Place,
    b: Place,
}

impl Placed {
    fn of(row: Row, places: &[Place]) -> Placed
        ensures { result ≡ record { row = row; d = place_of places.now row.d; a = place_of places.now row.a; b = place_of places.now row.b } }
    {
        Placed {
            row,
            d: place_at(places, row.d),
            a: place_at(places, row.a),
            b: place_at(places, row.b),
        }
    }

    // Whether the row is a copy whose ends stand together: nothing of it is in the code.
    fn idle(self) -> bool
        ensures { result ≡ idle_of self.row self.d self.a }
    {
        self.row.op.copies() && together(self.d, self.a)
    }

    fn loads(self) -> u8
        ensures { result ≡ loads_of self.row self.a self.b }
    {
        let shape = self.row.op.shape();
        spilled(shape.a, self.a) as u8 + spilled(shape.b, self.b) as u8
    }

    // The register that a is read from: that of its load, if it is spilled.
    fn origin(self, code: &[Row]) -> u16
        ensures { result ≡ origin_of self.a code.now }
    {
        if self.a.is_slot() {
            row_at(code, 0).d
        } else {
            self.a.home.number() as u16
        }
    }

    // Whether the row itself is in the code behind its loads: a copy within one register is not.
    fn kept(self, code: &[Row]) -> bool
        ensures { result ≡ kept_of self.row (loads_of self.row self.a self.b) self.d self.a code.now }
    {
        !self.row.op.copies()
            || carries(
                row_at(code, self.loads() as usize),
                self.origin(code),
                self.d,
            )
    }

    fn block(self, code: &[Row]) -> Block
        ensures { result ≡ block_at self.row self.d self.a self.b code.now }
    {
        if self.idle() {
            return Block::NONE;
        }
        Block {
            loads: self.loads(),
            kept: self.kept(code),
            store: spilled(self.row.op.shape().d, self.d),
        }
    }
}

// The block of a row of the source, `code` being what begins with it. The places alone do not tell it: of a copy from
// or to a slot only the load or the store is left if it would copy within one register.
pub fn block_of(row: Row, places: &[Place], code: &[Row]) -> Block
    ensures { result ≡ block_of places.now row code.now }
{
    Placed::of(row, places).block(code)
}

// The name of a home, as the report tells it: a text, for the columns fill it up by themselves.
fn home_name(home: Home) -> &'static str {
    match home {
        Home::Open => "open",
        Home::Register(_) => "register",
        Home::Slot(_) => "slot",
    }
}

// A variable in a row of the source, in nine columns.
fn write_variable<W: fmt::Write>(v: u16, class: u8, f: &mut fmt::Formatter<W>) -> fmt::Result {
    let class = class_name(class);
    write!(f, " v{v}:{class}")?;
    f.write_repeated(" ", usize::from(v < 10))
}

// A row of the source by its number, in 48 columns.
#[derive(Clone, Copy)]
struct Source {
    i: usize,
    row: Row,
}

impl fmt::Display for Source {
    fn fmt<W: fmt::Write>(&self, f: &mut fmt::Formatter<W>) -> fmt::Result {
        let Source { i, row } = *self;
        let weight = row.weight;
        let name = op_name(row.op);
        write!(f, "{i:>5} {weight:>7}  {name:<6}")?;
        let mut free = 3usize;
        for field in fields(row).iter().flatten() {
            match *field {
                Field::Operand(v, class) => write_variable(v, class, f)?,
                Field::Constant(constant) => write!(f, " {constant:<8}")?,
                Field::Target(target) => write!(f, " row {target:<4}")?,
                Field::Slot(slot) => write!(f, " s{slot:<7}")?,
            }
            free = free.saturating_sub(1);
        }
        f.write_repeated("         ", free)
    }
}

// What stands left of a row of code: a row of the source beside its first, nothing beside the others.
fn write_left<W: fmt::Write>(source: Option<Source>, f: &mut fmt::Formatter<W>) -> fmt::Result {
    match source {
        Some(source) => write!(f, "{source}"),
        None => f.write_repeated(" ", 48),
    }
}

// Writes the row of code at a place, and gives the place of the next.
fn write_code<W: fmt::Write>(
    code: &[Row],
    at: usize,
    f: &mut fmt::Formatter<W>,
) -> Result<usize, fmt::Error> {
    if at >= code.len() {
        writeln!(f)?;
        return Ok(at);
    }
    let text = Spelled {
        letter: 'r',
        row: code[at],
    };
    writeln!(f, "{at:>5}  {text}")?;
    Ok(at + 1)
}

// Writes a row of the source beside its block, which begins at a place of the code; gives the place behind it.
fn write_block<W: fmt::Write>(
    source: Source,
    block: Block,
    code: &[Row],
    start: usize,
    f: &mut fmt::Formatter<W>,
) -> Result<usize, fmt::Error> {
    let mut left = Some(source);
    let mut at = start;
    for _ in 0..block.loads {
        write_left(left.take(), f)?;
        at = write_code(code, at, f)?;
    }
    write_left(left.take(), f)?;
    if block.kept {
        at = write_code(code, at, f)?;
    } else {
        writeln!(f, "       dropped")?;
    }
    if block.store {
        write_left(None, f)?;
        at = write_code(code, at, f)?;
    }
    Ok(at)
}

fn write_blocks<W: fmt::Write>(
    rows: &[Row],
    places: &[Place],
    code: &[Row],
    f: &mut fmt::Formatter<W>,
) -> fmt::Result {
    writeln!(
        f,
        "  row  weight  source                             row  code"
    )?;
    let mut at = 0usize;
    for (i, row) in rows.iter().enumerate() {
        let start = at.min(code.len());
        let block = block_of(*row, places, &code[start..]);
        at = write_block(Source { i, row: *row }, block, code, start, f)?;
    }
    Ok(())
}

fn write_place<W: fmt::Write>(
    v: usize,
    class: u8,
    place: Place,
    f: &mut fmt::Formatter<W>,
) -> fmt::Result {
    let class = class_name(class);
    let home = home_name(place.home);
    let number = place.home.number();
    let round = place.round;
    let mark = if place.hoped { "hoped" } else { "tested" };
    writeln!(
        f,
        "v{v:<7}  {class:<5}  {home:<8}  {number:>6}  {round:>5}  {mark}"
    )
}

// A compiled program to read: its source and its code side by side, and the report.
#[derive(Drop)]
pub struct Sheet<'a, 'b> {
    pub program: &'a Compiled<'b>,
}

impl fmt::Display for Sheet<'_, '_> {
    fn fmt<W: fmt::Write>(&self, f: &mut fmt::Formatter<W>) -> fmt::Result {
        let program = self.program;
        write_blocks(program.source_rows(), program.places(), program.code(), f)?;
        writeln!(f)?;
        writeln!(f, "variable  class  home      number  round  mark")?;
        for (v, place) in program.places().iter().enumerate() {
            if let Some(class) = program.class(v) {
                write_place(v, class, *place, f)?;
            }
        }
        Ok(())
    }
}
