#![tactic(auto)]

// What a compiled program has for its static record from the rounds.
ghost use Rattle.assembling.specs.Assembling.{LiveLively, AdmittedLively, RegistersApart};
ghost use Rattle.assembling.specs.Rounds.{FewRounds};
ghost use Rattle.assembling.specs.Whole.{AdmittedSound, StaticMet, CompiledAgrees};

// What is called live before each row is closed over the rows.
pub fn live_lively()
    ensures { LiveLively }
{}

// So it is of an admitted program, and nothing is live before its first row.
pub fn admitted_lively()
    ensures { AdmittedLively }
{}

// A round that colours keeps registers apart.
pub fn registers_apart()
    ensures { RegistersApart }
{}

// If every round finds its program in order, one colours in time, and only what was hoped for stands in slots.
pub fn few_rounds()
    ensures { FewRounds }
{}

// An admitted program is sound.
pub fn admitted_sound()
    ensures { AdmittedSound }
{}

// If its rounds find it in order and keep its source standing, a compiled program meets the static record.
pub fn static_met()
    ensures { StaticMet }
{}

// So it agrees with its source.
pub fn compiled_agrees()
    ensures { CompiledAgrees }
{}
