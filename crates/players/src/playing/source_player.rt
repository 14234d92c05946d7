ghost use Rattle.std.specs.Prelude.{◌≡◌, []};
ghost use Rattle.rows.specs.Rows.{row_at};
ghost use Rattle.machine.specs.Players.{fresh, run, rows_played};
ghost use Rattle.players.specs.Playing.{input_of, rows_of, source_of, SourceStep};

use crate::playing::{Steps, number_at, play, put};
use crate::{Input, Player, SourcePlayer, SourceScript};
use machine::{Outcome, Played};

impl SourcePlayer {
    // At the first row, all variables 0.
    pub fn on(script: SourceScript) -> SourcePlayer
        ensures rows { rows_of result.player ≡ script.entry.script.rows.now }
        ensures starts { source_of result ≡ fresh (λ _. 0) (λ _. 0) [] }
    {
        SourcePlayer {
            player: Player::on(script.script),
            variables: [0; 64],
        }
    }

    pub fn restart(&mut self, input: Input)
        ensures rows { rows_of self.new.player ≡ rows_of self.old.player }
        ensures starts { source_of self.new ≡ fresh (λ _. 0) (λ _. 0) (input_of input) }
    {
        self.player.restart(input);
        self.variables = [0; 64];
    }

    // Plays n rows, unless one ends the player before.
    pub fn play(&mut self, n: u32) -> Played
        ensures rows { rows_of self.new.player ≡ rows_of self.old.player }
        ensures player { source_of self.new ≡ run (row_at (rows_of self.old.player)) (source_of self.old) n }
        ensures played { result.rows ≡ rows_played (row_at (rows_of self.old.player)) (source_of self.old) n }
        ensures outcome { result.outcome ≡ (source_of self.new).shared.outcome }
    {
        play(self, n)
    }
}

impl Steps for SourcePlayer {
    ghost outcome = { λ p. p.player.tape.outcome };

    ghost Step = { SourceStep };

    fn outcome(&self) -> Outcome {
        self.player.tape.outcome
    }

    fn step(&mut self) {
        let row = self.player.current();
        let x = number_at(&self.variables, row.a as usize);
        let y = number_at(&self.variables, row.b as usize);
        if let Some(number) = self.player.turn(x, y, &mut []) {
            put(&mut self.variables, row.d as usize, number);
        }
    }
}
