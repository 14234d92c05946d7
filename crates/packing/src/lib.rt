#![tactic(auto)]

ghost use Rattle.packing.specs.Inverse.{ForgetsNothing, OneFileOneProgram, PacksBytes, ReadsBack, ReadsWell};

// The program of a file packs to that file.
pub fn reading_forgets_nothing()
    ensures { ForgetsNothing }
{}

// Two files of one program are the same.
pub fn one_file_one_program()
    ensures { OneFileOneProgram }
{}

// Every program packs to bytes.
pub fn packing_gives_bytes()
    ensures { PacksBytes }
{}

// The file of a well-formed program is read as that program.
pub fn packing_reads_back()
    ensures { ReadsBack }
{}

// Only a well-formed program is read.
pub fn reading_is_well_formed()
    ensures { ReadsWell }
{}
