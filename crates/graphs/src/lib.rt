#![tactic(auto)]

pub mod variables;

ghost use Rattle.std.specs.Prelude.{◌≡◌, ℕ, ◌<◌, ◌≤◌, min, ◌&&◌, length, take, ◌==◌, nat_lt, slice_index};
ghost use Rattle.sets.specs.Sets.{has};
ghost use Rattle.sets.specs.Words.{members, sets_of};
ghost use Rattle.rounds.specs.Interference.{Graph, beside as beside_of};
ghost use Rattle.rounds.specs.Pressure.{pressure as pressure_of, passes as passes_of};
ghost use Rattle.graphs.specs.Graphs.{classes_of};

use registers::RegisterFile;
use sets::NodeSet;
use variables::Variables;

impl Variables {
    // The first `count` of the classes, the first `source` of them those of the source; no more than there is room for.
    pub fn of(source: usize, count: usize, classes: [u8; 448]) -> Variables
        ensures { (result.source ≡ min source 64) × (classes_of result ≡ take count classes) }
    {
        let count = count.min(448);
        Variables {
            source: source.min(64),
            count,
            classes,
            masks: [0, 1, 2].map(|class| mask(&classes[..count], class)),
        }
    }

    // The class of each variable.
    pub fn as_slice(&self) -> &[u8]
        ensures { result.now ≡ classes_of self.now }
    {
        &self.classes[..self.count]
    }

    // The class of variable v, or 0 for a number that is no variable.
    pub fn class(&self, v: usize) -> u8
        ensures { result ≡ slice_index (classes_of self.now) v }
    {
        self.as_slice().get(v).copied().unwrap_or(0)
    }
}

// The variables of a class.
fn mask(classes: &[u8], class: u8) -> NodeSet
    requires { length classes.now ≤ 448 }
    ensures { (k : ℕ) → has (members result) k ≡ (nat_lt k (length classes.now) && slice_index classes.now k == class) }
{
    let mut set = NodeSet::EMPTY;
    for (k, c) in classes.iter().enumerate() {
        if *c == class {
            set = set.with(k);
        }
    }
    set
}

// The neighbours of v: every question about edges is asked here.
pub fn beside(edges: &[NodeSet], v: usize) -> NodeSet
    ensures { members result ≡ beside_of (sets_of edges.now) v }
{
    edges.get(v).copied().unwrap_or(NodeSet::EMPTY)
}

// What each question of pressure is asked over: a register file, the variables, and the edges between their nodes.
#[derive_where(Clone, Copy)]
pub struct Weighing<'a, F> {
    pub file: &'a F,
    pub variables: &'a Variables,
    pub edges: &'a [NodeSet],
}

impl<'a, F: RegisterFile> Weighing<'a, F> {
    pub fn beside(&self, v: usize) -> NodeSet
        ensures { members result ≡ beside_of (sets_of self.now.edges.now) v }
    {
        beside(self.edges, v)
    }

    // The pressure on v by the nodes of a set: by class, as many as the set has of it.
    pub fn pressure(&self, v: usize, by: NodeSet) -> u32
        ensures exact { (g : Graph) → g.classes ≡ classes_of self.now.variables.now → result ≡ pressure_of (F.RegisterFile.model self.now.file.now) g v (has (members by)) }
        ensures small { result ≤ 28672 }
    {
        let b = self.variables.class(v);
        let mut total = 0;
        for (c, mask) in self.variables.masks.iter().enumerate() {
            let near = by.meet(*mask).len();
            total += self.file.q(b, c as u8) as u32 * near;
        }
        total
    }

    // Whether v passes the test under the pressure of the nodes of a set.
    pub fn passes(&self, v: usize, by: NodeSet) -> bool
        ensures { (g : Graph) → g.classes ≡ classes_of self.now.variables.now → result ≡ passes_of (F.RegisterFile.model self.now.file.now) g v (has (members by)) }
    {
        self.pressure(v, by) < self.file.p(self.variables.class(v)) as u32
    }
}
