#![tactic(auto)]

// How source rows stand in the rows of every working program.
ghost use Rattle.standing.specs.Standing.{WellFormedSound, AdmittedStands, RewrittenStands, SlotOfNode, StandingStands, StandingBounded, JumpsInside};

// The rows of a well-formed program are sound.
pub fn well_formed_rows_are_sound()
    ensures { WellFormedSound }
{}

// Before the first round each source row is its own block.
pub fn admitted_rows_stand()
    ensures { AdmittedStands }
{}

// A round that spills leaves each source row its block.
pub fn rewritten_rows_stand()
    ensures { RewrittenStands }
{}

// A slot belongs to one node.
pub fn slots_belong_to_nodes()
    ensures { SlotOfNode }
{}

// Where source rows stand, each stands as agreement asks.
pub fn source_rows_stand()
    ensures { StandingStands }
{}

// Where source rows stand, rows, variables and slots are few.
pub fn working_programs_are_bounded()
    ensures { StandingBounded }
{}

// Where source rows stand, jumps go to rows that there are.
pub fn jumps_stay_inside()
    ensures { JumpsInside }
{}
