#![tactic(auto)]

pub mod playing;

ghost use Rattle.std.specs.Prelude.{◌≡◌, ◌<◌, ◌≤◌, length, take};
ghost use Rattle.players.specs.Scripts.{Inside, Classed, Named};

use machine::Outcome;
use rows::Row;

// The rows that a player is to play.
#[derive(Clone, Copy)]
pub struct Script<'a> {
    pub rows: &'a [Row],
    ghost some: { 1 ≤ length rows.now },
    ghost few: { length rows.now ≤ 512 },
    ghost inside: { Inside rows.now },
    ghost classed: { Classed rows.now },
}

// The rows of a source program.
#[derive(Clone, Copy)]
pub struct SourceScript<'a> {
    pub script: Script<'a>,
    ghost named: { Named script.rows.now },
}

// An input for both players: the first `count` of the numbers. Players are plain records, with their numbers in arrays.
#[derive(Clone, Copy)]
pub struct Input {
    pub numbers: [u32; 256],
    pub count: usize,
    ghost few: { count ≤ 256 },
    ghost whole: { length numbers ≡ 256 },
}

// The input of a player, of which it has taken some numbers, its output and its outcome.
#[derive(Clone, Copy)]
pub struct Tape {
    pub input: Input,
    pub taken: usize,
    pub output: [u32; 256],
    pub put: usize,
    pub outcome: Outcome,
    ghost left: { taken ≤ input.count },
    ghost room: { put ≤ 256 },
    ghost whole: { length output ≡ 256 },
}

// A player with a copy of its rows, the first `count`; `row` is its position.
#[derive(Clone, Copy)]
pub struct Player {
    pub rows: [Row; 512],
    pub count: usize,
    pub row: usize,
    pub tape: Tape,
    ghost few: { count ≤ 512 },
    ghost whole: { length rows ≡ 512 },
    ghost inside: { Inside (take count rows) },
    ghost classed: { Classed (take count rows) },
    ghost stands: { row < count },
}

// The source player and its variables.
#[derive(Clone, Copy)]
pub struct SourcePlayer {
    pub player: Player,
    pub variables: [u32; 64],
    ghost whole: { length variables ≡ 64 },
    ghost named: { Named (take player.count player.rows) },
}

// The code player, its bank and its slots.
#[derive(Drop)]
pub struct CodePlayer<B> {
    pub player: Player,
    pub bank: B,
    pub slots: [u32; 64],
    ghost whole: { length slots ≡ 64 },
}

// What a row that does not end its player did: the number for d, and whether the player goes on at the target.
#[derive(Clone, Copy)]
struct Turn {
    value: u32,
    jumped: bool,
}
