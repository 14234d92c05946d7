ghost use Rattle.std.specs.Prelude.{◌≡◌, ℕ, ◌≤◌, false, [], length, slice_index_or};
ghost use Rattle.rows.specs.Rows.{reads as reads_of, writes as writes_of, set_of, row_at, rows_left};
ghost use Rattle.admission.specs.Kinds.{nexts, reach, initialisation};
ghost use Rattle.admission.specs.Laws.{reach_lawful, initialisation_lawful};

use crate::graph::Graph;
use facts::FactKind;
use rows::Ways;
use sets::NodeSet;

impl<'a> Graph<'a> {
    pub fn len(&self) -> usize
        ensures { result ≡ length (nexts self.now.rows.now) }
    {
        self.rows.len()
    }

    // The rows that row i may go on to; none from a number that is no row.
    pub fn ways(&self, i: usize) -> Ways
        ensures { rows_left result ≡ slice_index_or (nexts self.now.rows.now) i [] }
    {
        match self.rows.get(i) {
            Some(row) => row.next(i as u16),
            None => Ways {
                target: None,
                below: None,
            },
        }
    }

    // The variables that row i reads; none for a number that is no row.
    pub fn reads(&self, i: usize) -> NodeSet
        ensures { result ≡ set_of (reads_of (row_at self.now.rows.now i)) }
    {
        match self.rows.get(i) {
            Some(row) => row.reads(),
            None => NodeSet::empty(),
        }
    }

    // The variables that row i writes; none for a number that is no row.
    pub fn writes(&self, i: usize) -> NodeSet
        ensures { result ≡ set_of (writes_of (row_at self.now.rows.now i)) }
    {
        match self.rows.get(i) {
            Some(row) => row.writes(),
            None => NodeSet::empty(),
        }
    }
}

// Reach: which rows a run may come to.
#[derive(Clone, Copy)]
pub struct Reach<'a> {
    pub graph: Graph<'a>,
}

// Each kind hands on the rows and ways of its graph. A type that did so once for all kinds would need a trait of its own for what
// they differ in, and hand on each of the other five methods.
impl<'a> FactKind for Reach<'a> {
    ghost flow = { λ k. reach k.graph.rows.now };

    ghost lawful = { λ k. reach_lawful k.graph.rows.now };

    fn rows(&self) -> usize {
        self.graph.len()
    }

    fn ways(&self, i: usize) -> Ways {
        self.graph.ways(i)
    }

    fn backward(&self) -> bool {
        false
    }

    fn entry(&self) -> NodeSet {
        NodeSet::empty().with(0)
    }

    fn least(&self) -> NodeSet {
        NodeSet::empty()
    }

    fn join(&self, a: NodeSet, b: NodeSet) -> NodeSet {
        a.union(b)
    }

    fn step(&self, _i: usize, x: NodeSet) -> NodeSet {
        x
    }
}

// Initialisation: which variables are written on every way to a row.
#[derive(Clone, Copy)]
pub struct Initialisation<'a> {
    pub graph: Graph<'a>,
    pub vars: usize,
    ghost few: { vars ≤ 64 },
}

impl<'a> FactKind for Initialisation<'a> {
    ghost flow = { λ k. initialisation k.vars k.graph.rows.now };

    ghost lawful = { λ k. initialisation_lawful k.vars k.graph.rows.now };

    fn rows(&self) -> usize {
        self.graph.len()
    }

    fn ways(&self, i: usize) -> Ways {
        self.graph.ways(i)
    }

    fn backward(&self) -> bool {
        false
    }

    fn entry(&self) -> NodeSet {
        NodeSet::empty()
    }

    fn least(&self) -> NodeSet {
        NodeSet::up_to(self.vars)
    }

    fn join(&self, a: NodeSet, b: NodeSet) -> NodeSet {
        a.meet(b)
    }

    fn step(&self, i: usize, x: NodeSet) -> NodeSet {
        x.union(self.graph.writes(i).meet(NodeSet::up_to(self.vars)))
    }
}
