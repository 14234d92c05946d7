#![tactic(auto)]

// What is live at each row and which variables are neighbours, as theorems on the definitions of a round.
ghost use Rattle.interfering.specs.Living.{LivenessByWays, NoneLiveAtStart};
ghost use Rattle.interfering.specs.Edges.{EdgesByRows, WritingMakesEdges};

// Liveness solves its equations, and is exactly what some way reads before it is written.
pub fn liveness_by_ways()
    ensures { LivenessByWays }
{}

// Nothing is live before row 0 of an admitted program.
pub fn nothing_live_at_the_start()
    ensures { NoneLiveAtStart }
{}

// Edges and hard edges are exactly what rows make, both ways, between different nodes.
pub fn edges_by_rows()
    ensures { EdgesByRows }
{}

// A row that writes a variable joins it with all others that are live after the row, also when it is never read.
pub fn writing_makes_edges()
    ensures { WritingMakesEdges }
{}
