#![tactic(auto)]

pub mod calls;

ghost use Rattle.std.specs.Prelude.{◌≡◌, ℕ, ◌+◌, ◌<◌, ◌≤◌, List, ◌++◌, length, drop, decimal, OnOk};
ghost use Rattle.printing.specs.Texts.{joined, numbers_text, home_letter as home_letter_of, mark_letter as mark_letter_of, place_text, places_text, item, items_of, row_text, rows_text, compiled_text};

use compiling::{Home, Place};
use itoa::{Buffer, write_digits};
use rows::Row;
use std::alloc::AllocError;

// The text of a row: eight items of at most five digits, each behind a comma.
const ROW_ROOM: usize = 48;

// The text of a place: two numbers of at most five digits, and three letters.
const PLACE_ROOM: usize = 13;

// What is told as text.
pub trait Told: Copy {
    ghost text: { Self → List ℕ };

    // Adds its text.
    fn tell(self, out: &mut Vec<u8>) -> Result<(), AllocError>
        ensures { OnOk result (out.new.items ≡ out.old.items ++ text self) };
}

// Adds the texts of a list with a mark between them, or what an empty list is told as.
pub fn write_list<T: Told>(
    xs: &[T],
    mark: u8,
    none: &[u8],
    out: &mut Vec<u8>,
) -> Result<(), AllocError>
    ensures { OnOk result (out.new.items ≡ out.old.items ++ joined mark none.now T.text xs.now) }
{
    match xs {
        [] => out.extend_from_slice(none),
        [first, rest @ ..] => {
            first.tell(out)?;
            for x in rest {
                out.push(mark)?;
                x.tell(out)?;
            }
            Ok(())
        }
    }
}

// A number in decimal digits.
impl Told for u32 {
    ghost text = { decimal };

    fn tell(self, out: &mut Vec<u8>) -> Result<(), AllocError> {
        let mut buffer = Buffer::new();
        out.extend_from_slice(buffer.format(self).as_bytes())
    }
}

// Adds a number in decimal digits.
pub fn write_number(n: u32, out: &mut Vec<u8>) -> Result<(), AllocError>
    ensures { OnOk result (out.new.items ≡ out.old.items ++ decimal n) }
{
    n.tell(out)
}

// Adds a list of numbers.
pub fn write_numbers(numbers: &[u32], out: &mut Vec<u8>) -> Result<(), AllocError>
    ensures { OnOk result (out.new.items ≡ out.old.items ++ numbers_text numbers.now) }
{
    write_list(numbers, b',', b"-", out)
}

// The letters stand in a line of bytes: a Display would print them into a text first.
fn home_letter(home: Home) -> u8
    ensures { result ≡ home_letter_of home }
{
    match home {
        Home::Open => b'-',
        Home::Register(_) => b'r',
        Home::Slot(_) => b's',
    }
}

fn mark_letter(hoped: bool) -> u8
    ensures { result ≡ mark_letter_of hoped }
{
    if hoped { b'h' } else { b't' }
}

impl Told for Place {
    ghost text = { place_text };

    fn tell(self, out: &mut Vec<u8>) -> Result<(), AllocError> {
        let mut text = [0; PLACE_ROOM];
        text[PLACE_ROOM - 1] = mark_letter(self.hoped);
        let round = put_item(Some(self.round as u16), &mut text, PLACE_ROOM - 1);
        text[round - 1] = b'@';
        let number = put_item(Some(self.home.number() as u16), &mut text, round - 1);
        text[number - 1] = home_letter(self.home);
        out.extend_from_slice(&text[number - 1..])
    }
}

// Adds the place of a variable.
pub fn write_place(place: Place, out: &mut Vec<u8>) -> Result<(), AllocError>
    ensures { OnOk result (out.new.items ≡ out.old.items ++ place_text place) }
{
    place.tell(out)
}

// Adds the places of all variables.
pub fn write_places(places: &[Place], out: &mut Vec<u8>) -> Result<(), AllocError>
    ensures { OnOk result (out.new.items ≡ out.old.items ++ places_text places.now) }
{
    write_list(places, b',', b"-", out)
}

// An item of a row, - if the opcode does not have it.
impl Told for Option<u16> {
    ghost text = { item };

    fn tell(self, out: &mut Vec<u8>) -> Result<(), AllocError> {
        match self {
            Some(n) => write_number(n as u32, out),
            None => out.extend_from_slice(b"-"),
        }
    }
}

// The items of a row; the last is its constant, its target or its slot.
fn items(row: Row) -> [Option<u16>; 8]
    ensures { result ≡ items_of row }
{
    let shape = row.op.shape();
    [
        Some(row.op.opcode() as u16),
        Some(row.weight as u16),
        shape.d.then_some(row.dclass as u16),
        shape.a.then_some(row.aclass as u16),
        row.written(),
        row.first_read(),
        row.second_read(),
        row.constant_given()
            .or(row.target_row())
            .or(shape.slot.then_some(row.slot as u16)),
    ]
}

// Puts an item before the place `end` of a text, and answers where it starts.
fn put_item(number: Option<u16>, text: &mut [u8], end: usize) -> usize
    requires { (5 ≤ end) × (end ≤ length text.old) }
    ensures within { (result < end) × (end ≤ result + 5) }
    ensures written { drop result text.new ≡ item number ++ drop end text.old }
{
    match number {
        Some(n) => write_digits(n as u64, text, end),
        None => {
            text[end - 1] = b'-';
            end - 1
        }
    }
}

// The text of a row is put together from its last item back, so that `out` grows once a row.
impl Told for Row {
    ghost text = { row_text };

    fn tell(self, out: &mut Vec<u8>) -> Result<(), AllocError> {
        let items = items(self);
        let mut text = [0; ROW_ROOM];
        let mut start = ROW_ROOM;
        for i in (0..items.len()).rev() {
            start = put_item(items[i], &mut text, start) - 1;
            text[start] = b',';
        }
        out.extend_from_slice(&text[start + 1..])
    }
}

// Adds a row of code.
pub fn write_row(row: Row, out: &mut Vec<u8>) -> Result<(), AllocError>
    ensures { OnOk result (out.new.items ≡ out.old.items ++ row_text row) }
{
    row.tell(out)
}

// Adds all rows of code.
pub fn write_rows(rows: &[Row], out: &mut Vec<u8>) -> Result<(), AllocError>
    ensures { OnOk result (out.new.items ≡ out.old.items ++ rows_text rows.now) }
{
    write_list(rows, b';', b"", out)
}

// Adds the words on a compiled program: how many rounds and slots, the places of the variables, the code. Its caller has
// the four from four questions to a state, and no struct that holds them.
pub fn write_compiled(
    rounds: u8,
    slots: u8,
    places: &[Place],
    rows: &[Row],
    out: &mut Vec<u8>,
) -> Result<(), AllocError>
    ensures { OnOk result (out.new.items ≡ out.old.items ++ compiled_text rounds slots places.now rows.now) }
{
    out.extend_from_slice(b"compiled rounds=")?;
    write_number(rounds as u32, out)?;
    out.extend_from_slice(b" slots=")?;
    write_number(slots as u32, out)?;
    out.extend_from_slice(b" vars=")?;
    write_places(places, out)?;
    out.extend_from_slice(b" code=")?;
    write_rows(rows, out)
}

#[cfg(test)]
mod tests {
    use super::*;
    use std::test::Fail;

    #[test]
    fn a_list_of_numbers(rt: HostRuntime) -> Result<(), Fail> {
        let mut out = Vec::new(rt.alloc());
        write_list(&[7_u32, 4_294_967_295, 0], b';', b"none", &mut out)?;
        assert_eq!(rt; out.as_slice(), b"7;4294967295;0".as_slice());
        Ok(())
    }

    #[test]
    fn an_empty_list(rt: HostRuntime) -> Result<(), Fail> {
        let mut out = Vec::new(rt.alloc());
        let numbers: [u32; 0] = [];
        write_list(&numbers, b';', b"none", &mut out)?;
        assert_eq!(rt; out.as_slice(), b"none".as_slice());
        Ok(())
    }
}
