#![tactic(auto)]

// Admits and compiles source files and lists chips, for people.
use answers::{Chip, Memory};
use listing::chip_listing;
use reports::{Explained, Rows};
use sheets::Sheet;
use stages::Record;
use stages::states::{Admitted, Compiled};
use std::{env, fs, io};

const USAGE: &str = "vizdolk judges and compiles source files and lists the registers of chips.

  vizdolk admit FILE..         lists the rows of each file and says whether it is admitted
  vizdolk compile CHIP FILE..  compiles each file for a chip: its rows beside their code, and the report
  vizdolk chip CHIP            lists the registers of a chip

CHIP is 0 for the nested chip and 1 for the paired.
";

fn tell_admitted(rt: &HostRuntime, path: &str, file: &[u8], memory: &mut Memory) -> io::Result<()> {
    let mut record = Record::new();
    let mut program = Admitted::over(&mut record);
    match memory.admit(&mut program, file) {
        Ok(()) => {
            let vars = program.vars();
            let count = program.count();
            let rows = Rows { program: &program };
            println!(rt; "{path}: variables {vars}, rows {count}\n{rows}admitted\n")
        }
        Err(fault) => {
            let why = Explained { fault, file };
            println!(rt; "{path}:\n{why}")
        }
    }
}

fn tell_compiled(
    rt: &HostRuntime,
    path: &str,
    file: &[u8],
    chip: Chip,
    memory: &mut Memory,
) -> io::Result<()> {
    let mut record = Record::new();
    let mut program = Compiled::over(&mut record);
    match memory.compile_for(&mut program, chip, file) {
        Ok(()) => {
            let vars = program.vars();
            let count = program.source_rows().len();
            let rounds = program.rounds();
            let slots = program.slots();
            let made = program.code().len();
            let sheet = Sheet { program: &program };
            println!(rt;
                "{path}: variables {vars}, rows {count}\n{sheet}\ncompiled for the {chip} chip: rounds {rounds}, slots {slots}, rows in {count}, rows out {made}\n"
            )
        }
        Err(fault) => {
            let why = Explained { fault, file };
            println!(rt; "{path}:\n{why}")
        }
    }
}

// Admits a file, or compiles it if a chip is given.
fn tell_file(
    rt: &HostRuntime,
    path: &str,
    chip: Option<Chip>,
    memory: &mut Memory,
) -> io::Result<()> {
    match (fs::read(rt, path), chip) {
        (Ok(file), None) => tell_admitted(rt, path, file.as_slice(), memory),
        (Ok(file), Some(chip)) => tell_compiled(rt, path, file.as_slice(), chip, memory),
        (Err(error), _) => println!(rt; "{path}: cannot be read: {error}\n"),
    }
}

fn tell_files(rt: &HostRuntime, paths: &[String], chip: Option<Chip>) -> io::Result<()> {
    let mut memory = Memory::new();
    for path in paths {
        tell_file(rt, path.as_str(), chip, &mut memory)?;
    }
    Ok(())
}

fn tell_no_chip(rt: &HostRuntime, word: &str) -> io::Result<()> {
    println!(rt; "There is no chip {word}: chip 0 is nested, chip 1 is paired.")
}

fn compile_files(rt: &HostRuntime, word: &str, paths: &[String]) -> io::Result<()> {
    match Chip::try_from(word.as_bytes()) {
        Ok(chip) => tell_files(rt, paths, Some(chip)),
        Err(_) => tell_no_chip(rt, word),
    }
}

fn tell_chip(rt: &HostRuntime, word: &str) -> io::Result<()> {
    if let Ok(chip) = word.parse::<u8>() {
        if let Some(table) = chip_listing(rt.alloc(), chip)? {
            return print!(rt; "{table}");
        }
    }
    tell_no_chip(rt, word)
}

fn main(rt: HostRuntime) -> io::Result<()> {
    let words: Vec<String> = env::args(&rt)?.collect(rt.alloc())?;
    let words = words.as_slice();
    match words {
        [_, command, paths @ ..] if command.as_str() == "admit" && paths.len() > 0 => {
            tell_files(&rt, paths, None)
        }
        [_, command, chip, paths @ ..] if command.as_str() == "compile" && paths.len() > 0 => {
            compile_files(&rt, chip.as_str(), paths)
        }
        [_, command, chip] if command.as_str() == "chip" => tell_chip(&rt, chip.as_str()),
        _ => print!(rt; "{USAGE}"),
    }
}
