#![tactic(auto)]

pub mod report;
pub mod states;

ghost use Rattle.std.specs.Prelude.{◌≡◌, ℕ, true, false, not, List, replicate, Ok, Err};
ghost use Rattle.faults.specs.declared.ProgramFault.{ProgramFault as AnyFault};
ghost use Rattle.rows.specs.Rows.{Program};
ghost use Rattle.admission.specs.Admission.{unless_fault};
ghost use Rattle.admission.specs.Memory.{parts, short_part as short_part_of, answer, answered};
ghost use Rattle.paths.specs.Paths.{Admits};
ghost use Rattle.rounds.specs.Round.{colours};
ghost use Rattle.compiling.specs.Working.{admitted as admitted_of, round_of};
ghost use Rattle.compiling.specs.Rewrite.{ticket, rewritten_by};
ghost use Rattle.compiling.specs.Emit.{coloured as coloured_by, emitted_by};
ghost use Rattle.compiling.specs.Compile.{compiled_by};
ghost use Rattle.drafts.specs.Drafts.{working_of, coloured_of, ticket_of};
ghost use Rattle.histories.specs.Histories.{Grown, Finished, end_program, end_code};
ghost use Rattle.agreement.specs.Keeping.{Prompt};
ghost use Rattle.allocation.specs.Allocation.{afterwards};
ghost use Rattle.stages.specs.Stages.{program_in, working_in, coloured_in, compiled_in, holding, Turned, Ready};

use admission::{admitted, short_part};
use allocation::Round;
use drafts::draft::Draft;
use drafts::token::Token;
use emission::colour;
use faults::ProgramFault;
use graphs::variables::Variables;
use registers::RegisterFile;
use rewriting::spill;
use rows::Row;
use rows::lines::Lines;
use sets::NodeSet;
use source::program::Source;
pub use states::Admitted;
use states::{Coloured, Compiled, Rounded, SpillOrder};

// The one record of a program. Only the calls of this crate change it.
#[derive(Clone, Copy)]
pub struct Record {
    draft: Draft,
}

impl Record {
    // A record that holds the program of the row end alone, admitted.
    pub fn new() -> Record
        ensures program { program_in result ≡ end_program }
        ensures fresh { working_in result ≡ admitted_of end_program }
    {
        let source = Source {
            vars: 0,
            count: 1,
            classes: [0; 64],
            rows: [Row::END; 128],
        };
        Record {
            draft: Draft::of(source),
        }
    }
}

impl<'a> Admitted<'a> {
    // Sets the record to the program of the row end alone, which is admitted.
    pub fn over(into: &'a mut Record) -> Admitted<'a>
        ensures program { (program_in result.record.now ≡ end_program) × (result.record.ghost_name ≡ into.entry.ghost_name) }
        ensures fresh { working_in result.record.now ≡ admitted_of end_program }
    {
        *into = Record::new();
        Admitted { record: into }
    }
}

// The three parts of memory are three slices in every call, as a caller in another language has them.
//
// Admits a file: the record then holds its program, before its first round. A refusal leaves the record as it was.
// Which files are admitted is told by paths: those that can be read, whose rows all lie on paths from row 0 on which
// each read follows a write. The memory is three parts of at least 512, 448 and 448 node sets; what it holds counts for nothing.
pub fn admit(
    p: &mut Admitted,
    file: &[u8],
    first: &mut [NodeSet],
    second: &mut [NodeSet],
    third: &mut [NodeSet],
) -> Result<(), ProgramFault>
    ensures answer { answer (holding result (program_in p.new.record.now)) (parts first.new second.new third.new) ≡ answered file.now (parts first.old second.old third.old) }
    ensures fresh { result ≡ Ok tt → working_in p.new.record.now ≡ admitted_of (program_in p.new.record.now) }
    ensures refused { (e : AnyFault) → result ≡ Err e → p.new.record.now ≡ p.old.record.now }
    ensures same { p.new.record.ghost_name ≡ p.old.record.ghost_name }
    ensures paths { (q : Program) → Admits file.now q }
{
    let source = admitted(file, first, second, third)?;
    *p.record = Record {
        draft: Draft::of(source),
    };
    Ok(())
}

// Whether a round may be held in this memory: the fault of its lowest part that is too short. The program stays admitted.
pub fn room(
    _p: &Admitted,
    first: &[NodeSet],
    second: &[NodeSet],
    third: &[NodeSet],
) -> Result<(), ProgramFault>
    ensures { result ≡ unless_fault (short_part_of (parts first.now second.now third.now)) }
{
    short_part(first, second, third)
}

// What a spill order asks for after a round that coloured: nothing.
const NOTHING_OUT: Token = Token {
    out: NodeSet::EMPTY,
    hoped: NodeSet::EMPTY,
    slots: [0; 64],
    given: 0,
};

// The draft that a round coloured, or what goes out if it spilled.
fn take_turn<F: RegisterFile>(
    draft: &Draft,
    file: &F,
    first: &mut [NodeSet],
    second: &mut [NodeSet],
    third: &mut [NodeSet],
) -> Result<Draft, Token>
    requires { Ready (F.RegisterFile.model file.now) (working_of draft.now) }
    ensures turned { Turned (working_of draft.now) (round_of (F.RegisterFile.model file.now) (working_of draft.now)) result }
    ensures memory { parts first.new second.new third.new ≡ afterwards (parts first.old second.old third.old) }
{
    let variables = Variables::of(
        draft.source.vars,
        draft.classes.len(),
        draft.classes.padded(),
    );
    let lines = Lines { rows: draft.rows() };
    let round = Round {
        file,
        variables: &variables,
        nodes: draft.unspilled(),
        lines,
    };
    let end = round.allocate(first, second, third);
    if end.spilled.is_empty() {
        Ok(colour(draft, &end))
    } else {
        Err(spill(draft, &end))
    }
}

// A round of allocation: the flag of the answer says whether it spilled. It uses nothing of the register file but its
// answers. `room` says whether the memory is large enough; in one that is not, nothing is changed, and the round is held
// in memory of its own.
pub fn round<'a, F: RegisterFile>(
    p: Admitted<'a>,
    file: &F,
    first: &mut [NodeSet],
    second: &mut [NodeSet],
    third: &mut [NodeSet],
) -> Rounded<'a>
    ensures flag { result.spilled ≡ not (colours (round_of (F.RegisterFile.model file.now) (working_in p.entry.record.now))) }
    ensures out { result.spilled ≡ true → (result.record.now ≡ p.entry.record.now) × (ticket_of result.token (working_in p.entry.record.now) ≡ ticket (working_in p.entry.record.now) (round_of (F.RegisterFile.model file.now) (working_in p.entry.record.now))) }
    ensures painted { result.spilled ≡ false → coloured_in result.record.now ≡ coloured_by (working_in p.entry.record.now) (round_of (F.RegisterFile.model file.now) (working_in p.entry.record.now)) }
    ensures memory { parts first.new second.new third.new ≡ afterwards (parts first.old second.old third.old) }
{
    let Admitted { record } = p;
    match take_turn(&record.draft, file, first, second, third) {
        Ok(draft) => {
            *record = Record { draft };
            Rounded {
                record,
                spilled: false,
                token: NOTHING_OUT,
            }
        }
        Err(token) => Rounded {
            record,
            spilled: true,
            token,
        },
    }
}

// Carries a spill order out: loads, stores and temporaries for what went out. The program is admitted again.
pub fn rewrite<'a>(o: SpillOrder<'a>) -> Admitted<'a>
    ensures { working_in result.record.now ≡ rewritten_by (ticket_of o.entry.token (working_in o.entry.record.now)) (working_in o.entry.record.now) }
{
    o.spent()
}

// Puts registers in the place of variables.
pub fn emit<'a>(c: Coloured<'a>) -> Compiled<'a>
    ensures { compiled_in result.record.now ≡ emitted_by (coloured_in c.entry.record.now) }
{
    let Coloured { record } = c;
    let draft = emission::emit(&record.draft);
    *record = Record { draft };
    Compiled { record }
}

impl<'a> Compiled<'a> {
    // Sets the record to the program of the row end alone, compiled.
    pub fn over(into: &'a mut Record) -> Compiled<'a>
        ensures { (compiled_in result.record.now ≡ end_code) × (result.record.ghost_name ≡ into.entry.ghost_name) }
    {
        let mut draft = Record::new().draft;
        draft.rounds = 1;
        *into = Record { draft };
        Compiled { record: into }
    }

    fn close(self) -> Record
        ensures { result ≡ self.entry.record.now }
    {
        let Compiled { record } = self;
        *record
    }
}

// Rounds until one colours.
fn finish<'a, F: RegisterFile>(
    a: Admitted<'a>,
    chip: &F,
    first: &mut [NodeSet],
    second: &mut [NodeSet],
    third: &mut [NodeSet],
) -> Compiled<'a>
    ensures done { (n : ℕ) (bs : List ℕ) → Grown (replicate n (F.RegisterFile.model chip.now)) bs (working_in a.entry.record.now) → (k : ℕ) × Finished (F.RegisterFile.model chip.now) (replicate k (F.RegisterFile.model chip.now)) bs (compiled_in result.record.now) }
    ensures memory { parts first.new second.new third.new ≡ afterwards (parts first.old second.old third.old) }
{
    let mut a = a;
    loop {
        let r = round(a, chip, first, second, third);
        if !r.spilled() {
            return emit(r.coloured());
        }
        a = rewrite(r.order());
    }
}

// Compiles a file for a chip: the record then holds its code and its report. A file that is not admitted is refused as
// `admit` refuses it, and leaves the record as it was. The code is a function of the file and the chip's answers alone.
pub fn compile<F: RegisterFile>(
    p: &mut Compiled,
    chip: &F,
    file: &[u8],
    first: &mut [NodeSet],
    second: &mut [NodeSet],
    third: &mut [NodeSet],
) -> Result<(), ProgramFault>
    ensures answer { holding result (compiled_in p.new.record.now) ≡ compiled_by (λ _. F.RegisterFile.model chip.now) (answered file.now (parts first.old second.old third.old)).result }
    ensures memory { parts first.new second.new third.new ≡ (answered file.now (parts first.old second.old third.old)).memory }
    ensures prompt { result ≡ Ok tt → Prompt (compiled_in p.new.record.now) }
    ensures refused { (e : AnyFault) → result ≡ Err e → p.new.record.now ≡ p.old.record.now }
    ensures same { p.new.record.ghost_name ≡ p.old.record.ghost_name }
{
    let mut work = Record::new();
    let mut a = Admitted::over(&mut work);
    admit(&mut a, file, first, second, third)?;
    let c = finish(a, chip, first, second, third);
    *p.record = c.close();
    Ok(())
}
