#![tactic(auto)]

ghost use Rattle.chips.specs.NestedChip.{nested_file, nested_low};
ghost use Rattle.chips.specs.PairedChip.{paired_file, paired_low};
ghost use Rattle.machine.specs.OnBits.{Allowed};
ghost use Rattle.worked.specs.Table.{Cases};
ghost use Rattle.worked.specs.Generated.{Generated, Rehearsals};

// The worked cases hold of the definitions.
pub fn worked_cases()
    ensures { Cases }
{}

// The definitions compile generated files as the reference does.
pub fn generated_files()
    ensures { Generated }
{}

// The definitions rehearse them as the reference does.
pub fn generated_rehearsals()
    ensures { Rehearsals }
{}

// What is computed of rehearsals on either chip is what the rules allow.
pub fn calls_on_bits()
    ensures nested { Allowed nested_file nested_low }
    ensures paired { Allowed paired_file paired_low }
{}
