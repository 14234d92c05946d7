#![tactic(auto)]

ghost use Rattle.std.specs.Prelude.{◌≡◌, if◌then◌else◌, Ok, Err, nat_le};
ghost use Rattle.faults.specs.declared.PlayerFault.TheVariants.{Asked};
ghost use Rattle.compiling.specs.Working.{Compiled};
ghost use Rattle.machine.specs.Rehearsal.{opened as opened_of, Restart, PlaySource, PlayCode, Does};
ghost use Rattle.players.specs.Playing.{numbers_in};
ghost use Rattle.rehearsals.specs.Rehearsing.{rehearsal_of, file_of};

use faults::PlayerFault;
use machine::{Outcome, Played};
use players::playing::number_at;
use players::{CodePlayer, Input, Script, SourcePlayer, SourceScript};
use registers::{Bank, RegisterFile};

const MOST_ROWS: u32 = 65_535;

// The rows asked for, if a play serves as many.
fn asked(n: u32) -> Result<u32, PlayerFault>
    ensures { result ≡ (if nat_le n 65535 then Ok n else Err Asked) }
{
    if n <= MOST_ROWS {
        Ok(n)
    } else {
        Err(PlayerFault::Asked)
    }
}

/// A source program and its code, played side by side. Only restart and the two plays change it.
#[derive(Drop)]
pub struct Rehearsal<B> {
    source: SourcePlayer,
    code: CodePlayer<B>,
}

impl<B: Bank> Rehearsal<B> {
    /// Both players at row 0, running, with no input; variables are 0, registers and slots as handed.
    pub fn on(source: SourceScript, code: Script, bank: B, slots: [u32; 64]) -> Rehearsal<B>
        ensures file { file_of B.RegisterFile.model result ≡ B.RegisterFile.model bank }
        ensures opens { (c : Compiled) → c.source.rows ≡ source.entry.script.rows.now → c.rows ≡ code.entry.rows.now → rehearsal_of B.Bank.contents result ≡ opened_of c (B.Bank.contents bank) (numbers_in slots) }
    {
        Rehearsal {
            source: SourcePlayer::on(source),
            code: CodePlayer::on(code, bank, slots),
        }
    }

    /// Both players at row 0 with an input of at most 256 numbers; registers and slots stay.
    pub fn restart(&mut self, input: &[u32]) -> Result<Played, PlayerFault>
        ensures file { file_of B.RegisterFile.model self.new ≡ file_of B.RegisterFile.model self.old }
        ensures does { Does (file_of B.RegisterFile.model self.old) (Restart input.now) (rehearsal_of B.Bank.contents self.old) result (rehearsal_of B.Bank.contents self.new) }
        ensures refused { elim result [ Ok a ↦ Unit {0} | Err e ↦ self.new ≡ self.old ] }
    {
        let input = Input::of(input)?;
        self.source.restart(input);
        self.code.restart(input);
        Ok(Played {
            rows: 0,
            outcome: Outcome::Running,
        })
    }

    /// At most n rows of the source; n is at most 65,535.
    pub fn play_source(&mut self, n: u32) -> Result<Played, PlayerFault>
        ensures file { file_of B.RegisterFile.model self.new ≡ file_of B.RegisterFile.model self.old }
        ensures does { Does (file_of B.RegisterFile.model self.old) (PlaySource n) (rehearsal_of B.Bank.contents self.old) result (rehearsal_of B.Bank.contents self.new) }
        ensures refused { elim result [ Ok a ↦ Unit {0} | Err e ↦ self.new ≡ self.old ] }
    {
        Ok(self.source.play(asked(n)?))
    }

    /// At most n rows of the code; n is at most 65,535.
    pub fn play_code(&mut self, n: u32) -> Result<Played, PlayerFault>
        ensures file { file_of B.RegisterFile.model self.new ≡ file_of B.RegisterFile.model self.old }
        ensures does { Does (file_of B.RegisterFile.model self.old) (PlayCode n) (rehearsal_of B.Bank.contents self.old) result (rehearsal_of B.Bank.contents self.new) }
        ensures refused { elim result [ Ok a ↦ Unit {0} | Err e ↦ self.new ≡ self.old ] }
    {
        Ok(self.code.play(asked(n)?))
    }

    pub fn source_row(&self) -> usize
        ensures { result ≡ (rehearsal_of B.Bank.contents self.now).source.row }
    {
        self.source.player.row
    }

    pub fn code_row(&self) -> usize
        ensures { result ≡ (rehearsal_of B.Bank.contents self.now).code.row }
    {
        self.code.player.row
    }

    pub fn source_outcome(&self) -> Outcome
        ensures { result ≡ (rehearsal_of B.Bank.contents self.now).source.shared.outcome }
    {
        self.source.player.tape.outcome
    }

    pub fn code_outcome(&self) -> Outcome
        ensures { result ≡ (rehearsal_of B.Bank.contents self.now).code.shared.outcome }
    {
        self.code.player.tape.outcome
    }

    pub fn source_output(&self) -> &[u32]
        ensures { result.now ≡ (rehearsal_of B.Bank.contents self.now).source.shared.output }
    {
        self.source.player.tape.output()
    }

    pub fn code_output(&self) -> &[u32]
        ensures { result.now ≡ (rehearsal_of B.Bank.contents self.now).code.shared.output }
    {
        self.code.player.tape.output()
    }

    /// The number of variable v, 0 if there is none.
    pub fn variable(&self, v: usize) -> u32
        ensures { result ≡ (rehearsal_of B.Bank.contents self.now).source.numbers v }
    {
        number_at(&self.source.variables, v)
    }

    /// The number that the bank reads from register r.
    pub fn register(&self, r: usize) -> u32
        ensures { result ≡ (rehearsal_of B.Bank.contents self.now).code.numbers r }
    {
        self.code.bank.read(r)
    }

    /// The number in slot s, 0 if there is none.
    pub fn slot(&self, s: usize) -> u32
        ensures { result ≡ (rehearsal_of B.Bank.contents self.now).code.shared.slots s }
    {
        number_at(&self.code.slots, s)
    }
}
