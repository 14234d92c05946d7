#![tactic(auto)]

// What is true of every program that admit, round, rewrite and emit come to, whichever register file each round was given.
ghost use Rattle.histories.specs.Histories.{GrownFits, RoundsProgress, HistoriesCompile, FinishedAgrees, FinishedPlays, EndsFirst, HistoriesKnown};

// Every working program fits the buffers of the calls, and its rows keep to their bounds.
pub fn grown_programs_fit()
    ensures { GrownFits }
{}

// Every round that spills leaves fewer variables without a slot.
pub fn rounds_progress()
    ensures { RoundsProgress }
{}

// The calls in turn come to what compile answers, given the same register files.
pub fn histories_compile()
    ensures { HistoriesCompile }
{}

// Every compiled program agrees with its source, for the register file of its last round, and is prompt.
pub fn finished_programs_agree()
    ensures { FinishedAgrees }
{}

// Every compiled program goes on only to rows that there are, and its rows and report keep to their bounds.
pub fn finished_programs_play()
    ensures { FinishedPlays }
{}

// The program that only ends is admitted, and compiles with every register file.
pub fn the_end_compiles()
    ensures { EndsFirst }
{}

// All this holds too where a history is only known to be.
pub fn known_histories_suffice()
    ensures { HistoriesKnown }
{}
