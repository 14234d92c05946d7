#![tactic(auto)]

// What is live and which variables are neighbours in a working program, held against its source.
ghost use Rattle.transfer.specs.Inside.{TemporariesInside};
ghost use Rattle.transfer.specs.Paired.{StandingInOrder, NeighboursCouple, TemporariesPaired};
ghost use Rattle.transfer.specs.Transfer.{LivenessTransfers, HardEdgesTransfer};
ghost use Rattle.transfer.specs.Settling.{ClassesStay, RoundsSettle, SharedNodesQuiet, EdgesTransfer, RoundsSpill};
ghost use Rattle.transfer.specs.Sharing.{SharingHarmless};

// A temporary is live only inside its block.
pub fn temporaries_live_inside_blocks()
    ensures { TemporariesInside }
{}

// The rows of a working program name only its nodes, and copy within a class.
pub fn working_rows_in_order()
    ensures { StandingInOrder }
{}

// Temporaries that are neighbours are what the two loads of a block write.
pub fn neighbouring_temporaries_share_a_block()
    ensures { NeighboursCouple }
{}

// Before and after merging, a temporary has at most one temporary beside it.
pub fn temporaries_are_paired()
    ensures { TemporariesPaired }
{}

// A source variable without a slot is live before a source row just if it is before the row's block.
pub fn liveness_transfers()
    ensures { LivenessTransfers }
{}

// Source variables without a slot have a hard edge by a source row just if they have one by a working row.
pub fn hard_edges_transfer()
    ensures { HardEdgesTransfer }
{}

// The graph of a working program has the edges of the source's first graph, between source variables without a slot.
pub fn edges_transfer()
    ensures { EdgesTransfer }
{}

// Classes stay byte, half and word from round to round.
pub fn classes_stay_three()
    ensures { ClassesStay }
{}

// A round of a working program ends settled.
pub fn rounds_settle()
    ensures { RoundsSettle }
{}

// Source variables without a slot that share a node have no hard edge in the source.
pub fn shared_nodes_are_quiet()
    ensures { SharedNodesQuiet }
{}

// A round spills nodes of source variables that had no slot, and nothing else.
pub fn rounds_spill_source_nodes()
    ensures { RoundsSpill }
{}

// Variables share a slot only where they never disturb each other.
pub fn slots_are_shared_harmlessly()
    ensures { SharingHarmless }
{}
