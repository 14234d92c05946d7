#![tactic(auto)]

ghost use Rattle.std.specs.Prelude.{◌≡◌, [], ◌∷◌, ◌++◌, Some, Err, codes, OnOk};
ghost use Rattle.std.specs.Result.{result_ok};
ghost use Rattle.faults.specs.declared.ProgramFault.{ProgramFault as AnyFault};
ghost use Rattle.admission.specs.Admission.{admitting};
ghost use Rattle.compiling.specs.Compile.{compile};
ghost use Rattle.stages.specs.Stages.{holding, program_in, compiled_in};
ghost use Rattle.answers.specs.Answers.{size_text, verdict_text, verdict_of, answer_line, chip_file, chip_name, chip_word, chip_of, code_text, answer_to, reply_to, empty_memory};

use chips::nested::Nested;
use chips::paired::Paired;
use faults::{ProgramFault, Refusal};
use hexwords::{first_word, read_file, split_word};
use printing::write_compiled;
use registers::RegisterFile;
use sets::NodeSet;
use stages::states::{Admitted, Compiled};
use stages::{admit, compile};
use std::alloc::{AllocError, Global};
use std::fmt;

// How many variables and rows a program has.
#[derive(Clone, Copy, Debug, PartialEq, Eq)]
pub struct Size {
    pub vars: usize,
    pub rows: usize,
}

impl fmt::Display for Size {
    ghost output = { λ size. Some (size_text size) };

    fn fmt<W: fmt::Write>(&self, f: &mut fmt::Formatter<W>) -> fmt::Result {
        let Size { vars, rows } = *self;
        write!(f, "{vars} {rows}")
    }
}

// The chips that programs are compiled for, by their numbers.
#[derive(Clone, Copy, Debug, PartialEq, Eq)]
pub enum Chip {
    Nested = 0,
    Paired = 1,
}

// Told of a word that is no chip's number.
#[derive(Clone, Copy, Debug, PartialEq, Eq)]
pub struct NoChip;

impl TryFrom<&[u8]> for Chip {
    type Error = NoChip;

    ghost try_from_gives = { λ word chip. result_ok chip ≡ chip_of word.now };

    fn try_from(word: &[u8]) -> Result<Chip, NoChip> {
        match word {
            [b'0'] => Ok(Chip::Nested),
            [b'1'] => Ok(Chip::Paired),
            _ => Err(NoChip),
        }
    }
}

impl fmt::Display for Chip {
    ghost output = { λ chip. Some (chip_name chip) };

    fn fmt<W: fmt::Write>(&self, f: &mut fmt::Formatter<W>) -> fmt::Result {
        f.write_str(match self {
            Chip::Nested => "nested",
            Chip::Paired => "paired",
        })
    }
}

impl Chip {
    fn digit(self) -> u8
        ensures { result ∷ [] ≡ chip_word self }
    {
        b'0' + self as u8
    }
}

// The three parts of working memory that admission and compilation are lent.
#[derive(Drop)]
pub struct Memory {
    sets: [NodeSet; 512],
    edges: [NodeSet; 448],
    hard: [NodeSet; 448],
}

impl Memory {
    pub fn new() -> Memory
        ensures { result ≡ empty_memory }
    {
        Memory {
            sets: [NodeSet::EMPTY; 512],
            edges: [NodeSet::EMPTY; 448],
            hard: [NodeSet::EMPTY; 448],
        }
    }

    // Admits a file in this memory: the record then holds its program. A refusal leaves the record as it was.
    pub fn admit(&mut self, program: &mut Admitted, file: &[u8]) -> Result<(), ProgramFault>
        ensures admitted { holding result (program_in program.new.record.now) ≡ admitting file.now }
        ensures refused { (e : AnyFault) → result ≡ Err e → program.new.record.now ≡ program.old.record.now }
    {
        admit(
            program,
            file,
            &mut self.sets,
            &mut self.edges,
            &mut self.hard,
        )
    }

    // Compiles a file for a chip in this memory: the record then holds the compiled program. A refusal leaves the record as it was.
    pub fn compile<F: RegisterFile>(
        &mut self,
        program: &mut Compiled,
        chip: &F,
        file: &[u8],
    ) -> Result<(), ProgramFault>
        ensures compiled { holding result (compiled_in program.new.record.now) ≡ compile (F.RegisterFile.model chip.now) file.now }
        ensures refused { (e : AnyFault) → result ≡ Err e → program.new.record.now ≡ program.old.record.now }
    {
        compile(
            program,
            chip,
            file,
            &mut self.sets,
            &mut self.edges,
            &mut self.hard,
        )
    }

    // The verdict on a file; the program is that of the file if it is admitted.
    pub fn judge(&mut self, program: &mut Admitted, file: &[u8]) -> Result<Size, Refusal>
        ensures { result ≡ verdict_of (admitting file.now) }
    {
        self.admit(program, file)?;
        Ok(Size {
            vars: program.vars(),
            rows: program.count(),
        })
    }

    // Compiles a file for one of the chips.
    pub fn compile_for(
        &mut self,
        program: &mut Compiled,
        chip: Chip,
        file: &[u8],
    ) -> Result<(), ProgramFault>
        ensures compiled { holding result (compiled_in program.new.record.now) ≡ compile (chip_file chip) file.now }
        ensures refused { (e : AnyFault) → result ≡ Err e → program.new.record.now ≡ program.old.record.now }
    {
        match chip {
            Chip::Nested => self.compile(program, &Nested::with_bits(0), file),
            Chip::Paired => self.compile(program, &Paired::with_bits(0), file),
        }
    }
}

// Adds a verdict behind a space, and ends the line.
fn write_verdict(
    heap: Global,
    verdict: Result<Size, Refusal>,
    out: &mut Vec<u8>,
) -> Result<(), AllocError>
    ensures { OnOk result (out.new.items ≡ out.old.items ++ (codes " " ++ (verdict_text verdict ++ 10 ∷ []))) }
{
    let tail = match verdict {
        Ok(size) => format!(in heap; " admitted {size}\n")?,
        Err(refusal) => format!(in heap; " refused {refusal}\n")?,
    };
    out.extend_from_slice(tail.as_bytes())
}

// Adds what there is to say of a compiled program behind a space, and ends the line.
fn write_code(program: &Compiled, out: &mut Vec<u8>) -> Result<(), AllocError>
    ensures { OnOk result (out.new.items ≡ out.old.items ++ (codes " " ++ (code_text (compiled_in program.now.record.now) ++ 10 ∷ []))) }
{
    out.extend_from_slice(b" ")?;
    write_compiled(
        program.rounds(),
        program.slots(),
        program.places(),
        program.code(),
        out,
    )?;
    out.extend_from_slice(b"\n")
}

// Adds the line that answers the word of a file.
pub fn write_answer(
    heap: Global,
    word: &[u8],
    verdict: Result<Size, Refusal>,
    out: &mut Vec<u8>,
) -> Result<(), AllocError>
    ensures { OnOk result (out.new.items ≡ out.old.items ++ answer_line word.now verdict) }
{
    out.extend_from_slice(word)?;
    write_verdict(heap, verdict, out)
}

// Adds the line that answers a line whose first word spells no file.
fn write_bad_case(out: &mut Vec<u8>) -> Result<(), AllocError>
    ensures { OnOk result (out.new.items ≡ out.old.items ++ (codes "bad case" ++ 10 ∷ [])) }
{
    out.extend_from_slice(b"bad case\n")
}

// What lines are answered with: working memory, and room for the file that a line spells. The programs stay the caller's,
// who may go on with what is admitted or compiled.
#[derive(Drop)]
pub struct Desk {
    heap: Global,
    memory: Memory,
    file: Vec<u8>,
}

impl Desk {
    pub fn new(heap: Global) -> Desk
        ensures { result.memory ≡ empty_memory }
    {
        Desk {
            heap,
            memory: Memory::new(),
            file: Vec::new(heap),
        }
    }

    // Adds the line that answers a line of cases.
    pub fn answer(
        &mut self,
        program: &mut Admitted,
        line: &[u8],
        out: &mut Vec<u8>,
    ) -> Result<(), AllocError>
        ensures { OnOk result (out.new.items ≡ out.old.items ++ answer_to line.now) }
    {
        let word = first_word(line);
        let Some(file) = read_file(&mut self.file, word)? else {
            return write_bad_case(out);
        };
        let verdict = self.memory.judge(program, file);
        write_answer(self.heap, word, verdict, out)
    }

    // Adds the line that replies to a line of cases, which may ask to compile.
    pub fn reply(
        &mut self,
        admitted: &mut Admitted,
        compiled: &mut Compiled,
        line: &[u8],
        out: &mut Vec<u8>,
    ) -> Result<(), AllocError>
        ensures { OnOk result (out.new.items ≡ out.old.items ++ reply_to line.now) }
    {
        let (word, behind) = split_word(line);
        let Some(file) = read_file(&mut self.file, word)? else {
            return write_bad_case(out);
        };
        let Ok(chip) = Chip::try_from(first_word(behind)) else {
            let verdict = self.memory.judge(admitted, file);
            return write_answer(self.heap, word, verdict, out);
        };
        out.extend_from_slice(word)?;
        out.extend_from_slice(&[b' ', chip.digit()])?;
        match self.memory.compile_for(compiled, chip, file) {
            Ok(()) => write_code(compiled, out),
            Err(fault) => write_verdict(self.heap, Err(fault.into()), out),
        }
    }
}

#[cfg(test)]
mod tests {
    use super::*;
    use stages::Record;
    use std::test::Fail;

    #[test]
    fn a_reply_to_a_line_that_compiles(rt: HostRuntime) -> Result<(), Fail> {
        let mut admitted = Record::new();
        let mut admitted = Admitted::over(&mut admitted);
        let mut compiled = Record::new();
        let mut compiled = Compiled::over(&mut compiled);
        let mut desk = Desk::new(rt.alloc());
        let mut out = Vec::new(rt.alloc());
        desk.reply(&mut admitted, &mut compiled, b"000100000000 1", &mut out)?;
        assert_eq!(rt;
            out.as_slice(),
            b"000100000000 1 compiled rounds=1 slots=0 vars=- code=0,0,-,-,-,-,-,-\n".as_slice()
        );
        Ok(())
    }
}
