#![tactic(auto)]

// Answers lines of cases, one line for each.
use answers::Desk;
use stages::{Admitted, Record};
use std::io;
use std::io::{BufRead, BufReader, BufWriter, Write};

fn main(rt: HostRuntime) -> io::Result<()> {
    let heap = rt.alloc();
    let mut record = Record::new();
    let mut program = Admitted::over(&mut record);
    let mut desk = Desk::new(heap);
    let mut input = BufReader::new(heap, rt.stdin())?;
    let mut output = BufWriter::new(heap, rt.stdout())?;
    let mut line = Vec::new(heap);
    let mut text = Vec::new(heap);
    for _ in 0..u64::MAX {
        line.clear();
        if input.read_until(b'\n', &mut line)? == 0 {
            break;
        }
        if line.ends_with(b"\n") {
            let _ = line.pop();
        }
        text.clear();
        desk.answer(&mut program, line.as_slice(), &mut text)?;
        output.write_all(text.as_slice())?;
    }
    output.flush()
}
