ghost use Rattle.std.specs.Prelude.{◌≡◌, []};
ghost use Rattle.rows.specs.Rows.{row_at};
ghost use Rattle.machine.specs.Players.{fresh, Runs};
ghost use Rattle.players.specs.Playing.{numbers_in, input_of, rows_of, code_of, CodeStep};

use crate::playing::{Steps, play};
use crate::{CodePlayer, Input, Player, Script};
use machine::{Outcome, Played};
use registers::{Bank, RegisterFile};

impl<B: Bank> CodePlayer<B> {
    // At the first row, with registers and slots as handed.
    pub fn on(script: Script, bank: B, slots: [u32; 64]) -> CodePlayer<B>
        ensures rows { rows_of result.player ≡ script.entry.rows.now }
        ensures bank { result.bank ≡ bank }
        ensures starts { code_of B.Bank.contents result ≡ fresh (B.Bank.contents bank) (numbers_in slots) [] }
    {
        CodePlayer {
            player: Player::on(script),
            bank,
            slots,
        }
    }

    // Registers and slots stay.
    pub fn restart(&mut self, input: Input)
        ensures rows { rows_of self.new.player ≡ rows_of self.old.player }
        ensures bank { self.new.bank ≡ self.old.bank }
        ensures starts { code_of B.Bank.contents self.new ≡ fresh (B.Bank.contents self.old.bank) (numbers_in self.old.slots) (input_of input) }
    {
        self.player.restart(input);
    }

    // Plays n rows, unless one ends the player before.
    pub fn play(&mut self, n: u32) -> Played
        ensures rows { rows_of self.new.player ≡ rows_of self.old.player }
        ensures file { B.RegisterFile.model self.new.bank ≡ B.RegisterFile.model self.old.bank }
        ensures played { Runs (B.RegisterFile.model self.old.bank) (row_at (rows_of self.old.player)) (code_of B.Bank.contents self.old) n result.rows (code_of B.Bank.contents self.new) }
        ensures outcome { result.outcome ≡ (code_of B.Bank.contents self.new).shared.outcome }
    {
        play(self, n)
    }
}

impl<B: Bank> Steps for CodePlayer<B> {
    ghost outcome = { λ p. p.player.tape.outcome };

    ghost Step = { CodeStep B.RegisterFile.model B.Bank.contents };

    fn outcome(&self) -> Outcome {
        self.player.tape.outcome
    }

    fn step(&mut self) {
        let row = self.player.current();
        let x = self.bank.read(row.a as usize);
        let y = self.bank.read(row.b as usize);
        if let Some(number) = self.player.turn(x, y, &mut self.slots) {
            self.bank.write(row.d as usize, number);
        }
    }
}
