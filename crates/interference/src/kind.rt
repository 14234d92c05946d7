ghost use Rattle.rounds.specs.Liveness.{liveness};
ghost use Rattle.rounds.proofs.Lively.{liveness_lawful};

use admission::graph::Graph;
use facts::FactKind;
use rows::Ways;
use sets::NodeSet;

// Liveness: which variables a row further on may read before they are written again.
#[derive(Clone, Copy)]
pub struct Liveness<'a> {
    pub graph: Graph<'a>,
}

// Its rows and ways are handed on from the graph, as by the kinds of admission. Reach joins alike, but has another entry, step and
// direction: a type for both would be longer than the two methods that they share.
impl<'a> FactKind for Liveness<'a> {
    ghost flow = { λ k. liveness k.graph.rows.now };

    ghost lawful = { λ k. liveness_lawful k.graph.rows.now };

    fn rows(&self) -> usize {
        self.graph.len()
    }

    fn ways(&self, i: usize) -> Ways {
        self.graph.ways(i)
    }

    fn backward(&self) -> bool {
        true
    }

    fn entry(&self) -> NodeSet {
        NodeSet::empty()
    }

    fn least(&self) -> NodeSet {
        NodeSet::empty()
    }

    fn join(&self, a: NodeSet, b: NodeSet) -> NodeSet {
        a.union(b)
    }

    fn step(&self, i: usize, x: NodeSet) -> NodeSet {
        self.graph.reads(i).union(x.minus(self.graph.writes(i)))
    }
}
