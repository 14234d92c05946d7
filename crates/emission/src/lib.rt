#![tactic(auto)]

ghost use Rattle.std.specs.Prelude.{◌≡◌, ◌<◌, [], ◌∷◌, ◌++◌, map, length, take};
ghost use Rattle.counting.specs.Counting.{range};
ghost use Rattle.sets.specs.Sets.{when};
ghost use Rattle.rows.specs.Rows.{used};
ghost use Rattle.rounds.specs.Round.{Outcome};
ghost use Rattle.compiling.specs.Emit.{coded, idle, code_block, coloured, emitted_by};
ghost use Rattle.drafts.specs.Drafts.{working_of, coloured_of, compiled_of, Shows, Inside};
ghost use Rattle.layout.specs.Layouts.{Holds};
ghost use Rattle.emission.specs.Emission.{register_in, register_or, node_register, place_after};

use compiling::{Home, Place};
use drafts::draft::Draft;
use drafts::token::Colouring;
use layout::blocks::Layout;
use lists::Few;
use rows::Row;

// The draft after a round that coloured it: a register for every variable, and the places of those without a slot.
pub fn colour(draft: &Draft, end: &Colouring) -> Draft
    ensures { (o : Outcome) → Shows (length draft.now.classes) end.now o → Inside (working_of draft.now) o → draft.now.rounds < 255 → coloured_of result ≡ coloured (working_of draft.now) o }
{
    let mut next = *draft;
    next.registers = registers_of(draft, end);
    next.rounds = draft.rounds.saturating_add(1);
    next.places = places_of(&next, end);
    next
}

// The register of each variable: that of its node.
fn registers_of(draft: &Draft, end: &Colouring) -> Few<u8, 448>
    ensures registers { result ≡ map (node_register draft.now end.now) (take (length draft.now.classes) end.now.node) }
    ensures size { length result ≡ length draft.now.classes }
{
    let n = draft.classes.len();
    let mut registers = Few::new();
    for node in &end.node[..n] {
        registers.push(end.register_of(n, *node as usize));
    }
    registers
}

// The places of the source's variables in a draft that has its registers: those without a slot are given in its last round.
fn places_of(draft: &Draft, end: &Colouring) -> Few<Place, 64>
    ensures places { result ≡ map (place_after draft.now end.now) (range draft.now.source.vars 0) }
    ensures size { length result ≡ draft.now.source.vars }
{
    let mut places = Few::new();
    for v in 0..draft.source.vars {
        places.push(place_of(draft, end, v));
    }
    places
}

fn place_of(draft: &Draft, end: &Colouring, v: usize) -> Place
    ensures { result ≡ place_after draft.now end.now v }
{
    let place = draft.place_of(v);
    if place.is_slot() {
        return place;
    }
    Place {
        home: Home::Register(draft.register_of(v)),
        round: draft.rounds,
        hoped: end.hoped.contains(end.node_of(draft.classes.len(), v)),
    }
}

// The draft with its registers put in.
pub fn emit(draft: &Draft) -> Draft
    ensures { compiled_of result ≡ emitted_by (coloured_of draft.now) }
{
    let mut next = *draft;
    next.rows = lay_out(draft).moved();
    next
}

// The blocks of all rows.
fn lay_out(draft: &Draft) -> Layout
    ensures { Holds result.rows result.starts (map (code_block (register_in draft.now)) (working_of draft.now).rows) }
{
    let mut code = Layout::new();
    for row in draft.rows() {
        lay_block(&mut code, draft, *row);
    }
    code
}

// The block of a row: nothing for a copy within one register.
fn lay_block(code: &mut Layout, draft: &Draft, row: Row)
    ensures rows { code.new.rows ≡ take 512 (code.old.rows ++ code_block (register_in draft.now) row) }
    ensures starts { code.new.starts ≡ take 512 (code.old.starts ++ length code.old.rows ∷ []) }
{
    code.open();
    if !is_idle(draft, row) {
        code.push(coded_row(draft, row));
    }
}

fn is_idle(draft: &Draft, row: Row) -> bool
    ensures { result ≡ idle (register_in draft.now) row }
{
    row.op.copies() && draft.register_of(row.d as usize) == draft.register_of(row.a as usize)
}

fn coded_row(draft: &Draft, row: Row) -> Row
    ensures { result ≡ coded (register_in draft.now) row }
{
    Row {
        d: register_or_none(draft, row.written()),
        a: register_or_none(draft, row.first_read()),
        b: register_or_none(draft, row.second_read()),
        ..row
    }
}

// The register of the variable that a field names; 0 for a field that is not in use.
fn register_or_none(draft: &Draft, v: Option<u16>) -> u16
    ensures { result ≡ register_or (register_in draft.now) v }
{
    v.map_or(0, |v| draft.register_of(v as usize) as u16)
}
