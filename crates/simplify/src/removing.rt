ghost use Rattle.std.specs.Prelude.{◌≡◌, ◌^◌, ◌<◌, ◌≤◌, ◌&&◌, length};
ghost use Rattle.sets.specs.Sets.{has, single, minus as minus_of};
ghost use Rattle.sets.specs.Words.{members};
ghost use Rattle.rounds.specs.Interference.{neighbours};
ghost use Rattle.rounds.specs.Pressure.{pressure as pressure_of, passes as passes_of};
ghost use Rattle.rounds.specs.Simplify.{remaining, removable as removable_of, better as better_of, cheapest as cheapest_of, next_removed as next_removed_of};
ghost use Rattle.graphs.specs.Graphs.{drawn};
ghost use Rattle.simplify.specs.Lightness.{Light};

use graphs::Weighing;
use registers::RegisterFile;
use rounds::{Offer, Removed};
use sets::{NodeSet, Test};

// Nodes while they are removed: the costs of those of source variables, the nodes that are left, and of these the light
// ones, which pass the test. The light nodes are kept, so that a removal weighs only the neighbours that it eases.
#[derive(Drop)]
pub struct Removing<'a, F: RegisterFile> {
    weighing: Weighing<'a, F>,
    costs: &'a [u32],
    left: NodeSet,
    light: NodeSet,
    ghost priced: { length costs.now ≤ 64 },
    ghost within: { members left < 2 ^ 448 },
    ghost lit: { Light (F.RegisterFile.model weighing.file.now) (drawn weighing) (members left) (members light) },
}

// Whether a node is left and passes the test.
#[derive(Drop)]
struct Removable<'a, F: RegisterFile> {
    weighing: Weighing<'a, F>,
    left: NodeSet,
}

impl<'a, F: RegisterFile> Test for Removable<'a, F> {
    ghost passes = { λ t v. removable_of (F.RegisterFile.model t.weighing.file.now) (drawn t.weighing) (members t.left) v };

    fn passes(&self, v: usize) -> bool {
        self.left.contains(v)
            && self
                .weighing
                .passes(v, self.weighing.beside(v).meet(self.left))
    }
}

// The nodes that are left and pass the test.
fn light_nodes<F: RegisterFile>(weighing: &Weighing<F>, left: NodeSet) -> NodeSet
    ensures { Light (F.RegisterFile.model weighing.now.file.now) (drawn weighing.now) (members left) (members result) }
{
    let all = NodeSet::up_to(weighing.variables.count);
    let weighing = *weighing;
    all.filter(&Removable { weighing, left })
}

// Whether a node had `gone` for a neighbour and passes the test now.
#[derive(Drop)]
struct Eased<'a, F: RegisterFile> {
    weighing: Weighing<'a, F>,
    left: NodeSet,
    gone: usize,
}

impl<'a, F: RegisterFile> Test for Eased<'a, F> {
    ghost passes = { λ t v. has (neighbours (drawn t.weighing) v) t.gone && passes_of (F.RegisterFile.model t.weighing.file.now) (drawn t.weighing) v (remaining (drawn t.weighing) (members t.left) v) };

    fn passes(&self, v: usize) -> bool {
        let near = self.weighing.beside(v);
        near.contains(self.gone) && self.weighing.passes(v, near.meet(self.left))
    }
}

impl<'a, F: RegisterFile> Removing<'a, F> {
    // Nothing removed yet.
    pub fn begin(weighing: Weighing<'a, F>, costs: &'a [u32], nodes: NodeSet) -> Removing<'a, F>
        requires { length costs.now ≤ 64 }
        ensures { (result.weighing ≡ weighing.entry) × (result.costs ≡ costs.entry) × (result.left ≡ nodes) }
    {
        nodes.small();
        Removing {
            weighing,
            costs,
            left: nodes,
            light: light_nodes(&weighing, nodes),
        }
    }

    // The pressure on v by the nodes that are left.
    fn pressure_left(&self, v: usize) -> u32
        ensures { result ≡ pressure_of (F.RegisterFile.model self.now.weighing.file.now) (drawn self.now.weighing) v (remaining (drawn self.now.weighing) (members self.now.left) v) }
    {
        let near = self.weighing.beside(v);
        self.weighing.pressure(v, near.meet(self.left))
    }

    // Node v in place of the best so far, if it is left and its cost over pressure is less.
    fn better(&self, v: usize, best: Offer) -> Offer
        requires { v < length self.now.costs.now }
        ensures { result ≡ better_of (F.RegisterFile.model self.now.weighing.file.now) (drawn self.now.weighing) self.now.costs.now (members self.now.left) v best }
    {
        if !self.left.contains(v) {
            return best;
        }
        let cost = self.costs[v];
        let pressure = self.pressure_left(v);
        if (cost as u64) * (best.pressure as u64) < (best.cost as u64) * (pressure as u64) {
            Offer {
                node: v as u16,
                cost,
                pressure,
            }
        } else {
            best
        }
    }

    // The node with the least cost over pressure, the lowest of equals.
    fn cheapest(&self) -> Offer
        ensures { result ≡ cheapest_of (F.RegisterFile.model self.now.weighing.file.now) (drawn self.now.weighing) self.now.costs.now (members self.now.left) (length self.now.costs.now) }
    {
        // An offer without bound, which each node under pressure betters: with None each test of an offer would be two.
        let mut best = Offer {
            node: 448,
            cost: 1,
            pressure: 0,
        };
        for v in 0..self.costs.len() {
            best = self.better(v, best);
        }
        best
    }

    // What is removed next: the lowest light node, else the cheapest.
    pub fn next_removed(&self) -> Removed
        ensures { result ≡ next_removed_of (F.RegisterFile.model self.now.weighing.file.now) (drawn self.now.weighing) self.now.costs.now (members self.now.left) }
    {
        match self.light.first() {
            Some(v) => Removed {
                node: v as u16,
                hoped: false,
            },
            None => Removed {
                node: self.cheapest().node,
                hoped: true,
            },
        }
    }

    // The light nodes when `gone` is left no more: only its neighbours bear less, and no light node becomes heavy.
    fn light_without(&self, left: NodeSet, gone: usize) -> NodeSet
        requires { members left ≡ minus_of (members self.now.left) (single gone) }
        ensures { Light (F.RegisterFile.model self.now.weighing.file.now) (drawn self.now.weighing) (members left) (members result) }
    {
        let weighing = self.weighing;
        let all = NodeSet::up_to(weighing.variables.count);
        let heavy = left.minus(self.light).meet(all);
        let lighter = heavy.filter(&Eased {
            weighing,
            left,
            gone,
        });
        self.light.without(gone).union(lighter)
    }

    pub fn without(&self, gone: usize) -> Removing<'a, F>
        ensures { (result.weighing ≡ self.now.weighing) × (result.costs ≡ self.now.costs) × (members result.left ≡ minus_of (members self.now.left) (single gone)) }
    {
        let left = self.left.without(gone);
        Removing {
            weighing: self.weighing,
            costs: self.costs,
            left,
            light: self.light_without(left, gone),
        }
    }
}
