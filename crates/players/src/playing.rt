pub mod code;
pub mod source_player;

ghost use Rattle.std.specs.Prelude.{◌≡◌, ℕ, suc, ◌%◌, ◌^◌, ◌<◌, ◌≤◌, true, ◌&&◌, [], length, if◌then◌else◌, Some, None, slice_set};
ghost use Rattle.rows.specs.Rows.{shape as shape_of, bits, row_at};
ghost use Rattle.machine.specs.declared.Outcome.{Outcome as How};
ghost use Rattle.machine.specs.Machine.{meaning as meaning_of, taking as taking_of, putting as putting_of, jumps as jumps_of, effect as effect_on};
ghost use Rattle.machine.specs.Players.{fresh};
ghost use Rattle.players.specs.Playing.{numbers_in, input_of, output_of, Holds, shared_of, rows_of, player_of, Means, effect_of, Turned, Plays};

use crate::{Input, Player, Script, Tape, Turn};
use faults::PlayerFault;
use machine::{Outcome, Played};
use rows::{Op, Row};

const MOST: usize = 256;

// The number at place i, 0 past the last.
pub fn number_at(numbers: &[u32], i: usize) -> u32
    ensures { result ≡ numbers_in numbers.now i }
{
    numbers.get(i).copied().unwrap_or(0)
}

// Past the last place nothing is put. An index after a test, for `get_mut` tells nothing of what the slice ends as.
fn put(numbers: &mut [u32], i: usize, x: u32)
    ensures { numbers.new ≡ slice_set numbers.old i x }
{
    if i < numbers.len() {
        numbers[i] = x;
    }
}

fn reduced(x: u32, class: u8) -> u32
    ensures { result ≡ x % 2 ^ bits class }
{
    match class {
        0 => x % 256,
        1 => x % 65_536,
        _ => x,
    }
}

// Whether the row goes on at its target.
fn jumps(op: Op, x: u32, y: u32) -> bool
    ensures { result ≡ jumps_of op x y }
{
    let shape = op.shape();
    shape.target && (!shape.falls || x < y)
}

// A player that plays row after row. Each has a step of its own: what variables take is exact, and starts at 0, while a bank
// keeps its registers, and a write there may change those that overlap; one step for both would be no shorter.
trait Steps {
    ghost outcome: { Self → How };

    ghost Step: { Self → Self → Type 0 };

    fn outcome(&self) -> Outcome
        ensures { result ≡ outcome self.now };

    // Plays a row; an ended player rests.
    fn step(&mut self)
        ensures { Step self.old self.new };
}

// Plays n rows, unless one ends the player before.
fn play<P: Steps>(player: &mut P, n: u32) -> Played
    ensures played { Plays P.outcome P.Step player.old n result.rows player.new }
    ensures outcome { result.outcome ≡ P.outcome player.new }
{
    for rows in 0..n {
        let outcome = player.outcome();
        if !outcome.is_running() {
            return Played { rows, outcome };
        }
        player.step();
    }
    Played {
        rows: n,
        outcome: player.outcome(),
    }
}

impl Input {
    fn none() -> Input
        ensures { input_of result ≡ [] }
    {
        Input {
            numbers: [0; MOST],
            count: 0,
        }
    }

    pub fn of(numbers: &[u32]) -> Result<Input, PlayerFault>
        ensures { Holds numbers.now result }
    {
        if numbers.len() > MOST {
            return Err(PlayerFault::Input);
        }
        let mut copy = [0; MOST];
        copy[..numbers.len()].copy_from_slice(numbers);
        Ok(Input {
            numbers: copy,
            count: numbers.len(),
        })
    }

    pub fn as_slice(&self) -> &[u32]
        ensures { result.now ≡ input_of self.now }
    {
        &self.numbers[..self.count]
    }
}

impl Tape {
    // A running player's, with nothing taken and nothing put out.
    fn blank(input: Input) -> Tape
        ensures { (slots : ℕ → ℕ) → shared_of result slots ≡ (fresh (λ _. 0) slots (input_of input)).shared }
    {
        Tape {
            input,
            taken: 0,
            output: [0; MOST],
            put: 0,
            outcome: Outcome::Running,
        }
    }

    pub fn output(&self) -> &[u32]
        ensures { result.now ≡ output_of self.now }
    {
        &self.output[..self.put]
    }

    // The table of meanings; x and y are what a and b hold.
    fn meaning(&mut self, row: Row, x: u32, y: u32, slots: &mut [u32]) -> Result<u32, Outcome>
        requires { (shape_of row.op).slot ≡ true → length slots.old ≡ 64 }
        ensures { Means (meaning_of row.op x y row.constant row.slot (shared_of self.old (numbers_in slots.old))) result (shared_of self.new (numbers_in slots.new)) }
    {
        match row.op {
            Op::End => Err(Outcome::Ended),
            Op::Const => Ok(row.constant as u32),
            Op::Copy => Ok(x),
            Op::Add => Ok(x.wrapping_add(y)),
            Op::Sub => Ok(x.wrapping_sub(y)),
            Op::And => Ok(x & y),
            Op::Xor => Ok(x ^ y),
            Op::Widen => Ok(x),
            Op::Narrow => Ok(x),
            Op::Input => self.take(),
            Op::Output => self.put(x),
            Op::Jump => Ok(0),
            Op::Less => Ok(0),
            Op::Load => Ok(number_at(slots, row.slot as usize)),
            Op::Store => {
                put(slots, row.slot as usize, x);
                Ok(0)
            }
        }
    }

    // An input row.
    fn take(&mut self) -> Result<u32, Outcome>
        ensures { (slots : ℕ → ℕ) → Means (taking_of (shared_of self.old slots).input (shared_of self.old slots)) result (shared_of self.new slots) }
    {
        let x = self
            .input
            .as_slice()
            .get(self.taken)
            .copied()
            .ok_or(Outcome::Starved)?;
        self.taken += 1;
        Ok(x)
    }

    // An output row of x.
    fn put(&mut self, x: u32) -> Result<u32, Outcome>
        ensures { (slots : ℕ → ℕ) → Means (putting_of x (shared_of self.old slots)) result (shared_of self.new slots) }
    {
        if self.put < MOST {
            self.output[self.put] = x;
            self.put += 1;
            Ok(0)
        } else {
            Err(Outcome::Full)
        }
    }

    // An ended player rests, a row that ends it changes the outcome alone, any other does what it means.
    fn effect(&mut self, row: Row, x: u32, y: u32, slots: &mut [u32]) -> Option<Turn>
        requires classed { (shape_of row.op).d ≡ true → row.dclass ≤ 2 }
        requires room { (shape_of row.op).slot ≡ true → length slots.old ≡ 64 }
        ensures { effect_of result (shared_of self.new (numbers_in slots.new)) ≡ effect_on row x y (shared_of self.old (numbers_in slots.old)) }
    {
        if !self.outcome.is_running() {
            return None;
        }
        match self.meaning(row, x, y, slots) {
            Ok(value) => Some(Turn {
                value: reduced(value, row.dclass),
                jumped: jumps(row.op, x, y),
            }),
            Err(outcome) => {
                self.outcome = outcome;
                None
            }
        }
    }
}

impl Turn {
    // Where the player stands afterwards, from row i on.
    fn leads(self, row: Row, i: usize) -> usize
        requires { i < 512 }
        ensures { result ≡ (if self.jumped then row.target else suc i) }
    {
        if self.jumped {
            row.target as usize
        } else {
            i + 1
        }
    }
}

impl Player {
    // At the first row of a script.
    fn on(script: Script) -> Player
        ensures rows { rows_of result ≡ script.entry.rows.now }
        ensures starts { (numbers slots : ℕ → ℕ) → player_of result numbers slots ≡ fresh numbers slots [] }
    {
        let mut rows = [Row::END; 512];
        rows[..script.rows.len()].copy_from_slice(script.rows);
        Player {
            rows,
            count: script.rows.len(),
            row: 0,
            tape: Tape::blank(Input::none()),
        }
    }

    fn restart(&mut self, input: Input)
        ensures rows { rows_of self.new ≡ rows_of self.old }
        ensures starts { (numbers slots : ℕ → ℕ) → player_of self.new numbers slots ≡ fresh numbers slots (input_of input) }
    {
        self.row = 0;
        self.tape = Tape::blank(input);
    }

    // The row at which the player stands.
    fn current(&self) -> Row
        ensures { result ≡ row_at (rows_of self.now) self.now.row }
    {
        self.rows[self.row]
    }

    // Plays that row, x and y being what its a and b hold, and answers the number for its d, if it writes one.
    fn turn(&mut self, x: u32, y: u32, slots: &mut [u32]) -> Option<u32>
        requires { (shape_of (row_at (rows_of self.old) self.old.row).op).slot ≡ true → length slots.old ≡ 64 }
        ensures { let row = row_at (rows_of self.old) self.old.row in Turned row (effect_on row x y (shared_of self.old.tape (numbers_in slots.old))) self.old self.new (numbers_in slots.new) result }
    {
        let row = self.current();
        let turn = self.tape.effect(row, x, y, slots)?;
        self.row = turn.leads(row, self.row);
        row.op.shape().d.then_some(turn.value)
    }
}
