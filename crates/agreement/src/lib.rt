#![tactic(auto)]

// What every program compiled with lawful register files promises.
ghost use Rattle.machine.specs.Agreement.{Agreement};
ghost use Rattle.agreement.specs.Keeping.{Promptness};
ghost use Rattle.agreement.specs.Places.{RoundsFaithful, ClashesHarmless};

// A compiled program agrees with its source in every rehearsal on every bank of its register file, whatever registers and slots hold.
pub fn agreement_holds()
    ensures { Agreement }
{}

// It took at most one round more than it has variables, no variable that passed the test stands in a slot, and its rows and slots are few.
pub fn few_rounds_suffice()
    ensures { Promptness }
{}

// In every round rows, variables and slots are few, and source variables without a slot have the liveness and the edges that they have in the source.
pub fn rounds_keep_the_source()
    ensures { RoundsFaithful }
{}

// Variables in one slot or in overlapping registers have no hard edge in the source.
pub fn clashing_places_are_harmless()
    ensures { ClashesHarmless }
{}
