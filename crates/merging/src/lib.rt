#![tactic(auto)]

// What merging keeps of nodes, classes and edges, as theorems on the definitions of a round.
ghost use Rattle.merging.specs.Merging.{MergingKeeps, RoundMerges, NoHardEdgeInside, MembersShareAClass, AdmittedInOrder};

// Any list of copies merged any number of times keeps nodes, classes and edges in order.
pub fn merging_keeps()
    ensures { MergingKeeps }
{}

// So does a round.
pub fn round_merges()
    ensures { RoundMerges }
{}

// No row makes a hard edge between two members of a node.
pub fn no_hard_edge_inside_a_node()
    ensures { NoHardEdgeInside }
{}

// Members of a node share a class.
pub fn members_share_a_class()
    ensures { MembersShareAClass }
{}

// An admitted program names only its own variables and copies within a class.
pub fn admitted_in_order()
    ensures { AdmittedInOrder }
{}
