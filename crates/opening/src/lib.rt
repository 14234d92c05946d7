#![tactic(auto)]

ghost use Rattle.std.specs.Prelude.{◌≡◌};
ghost use Rattle.machine.specs.Rehearsal.{opened as opened_of};
ghost use Rattle.players.specs.Playing.{numbers_in};
ghost use Rattle.rehearsals.specs.Rehearsing.{rehearsal_of, file_of};
ghost use Rattle.stages.specs.Stages.{compiled_in};
ghost use Rattle.opening.specs.Promise.{Promise};

use players::{Script, SourceScript};
use registers::{Bank, RegisterFile};
use rehearsals::Rehearsal;
use stages::states::Compiled;

/// Opens a rehearsal on a compiled program: both players at row 0, running, with no input; registers and slots as handed.
/// It serves any bank. For one that gives the answers of the register file that the program is compiled for, both sides
/// agree after every list of calls.
pub fn open<B: Bank>(program: &Compiled, bank: B, slots: [u32; 64]) -> Rehearsal<B>
    ensures file { file_of B.RegisterFile.model result ≡ B.RegisterFile.model bank }
    ensures opens { rehearsal_of B.Bank.contents result ≡ opened_of (compiled_in program.now.record.now) (B.Bank.contents bank) (numbers_in slots) }
    ensures agreement { Promise (compiled_in program.now.record.now) (B.RegisterFile.model bank) (rehearsal_of B.Bank.contents result) }
{
    let source = SourceScript {
        script: Script {
            rows: program.source_rows(),
        },
    };
    let code = Script {
        rows: program.code(),
    };
    Rehearsal::on(source, code, bank, slots)
}
