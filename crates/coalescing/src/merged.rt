ghost use Rattle.std.specs.Prelude.{◌≡◌, ◌<◌, map, take, length, slice_index_or};
ghost use Rattle.counting.specs.Counting.{range};
ghost use Rattle.sets.specs.Sets.{single, minus};
ghost use Rattle.sets.specs.Words.{members};
ghost use Rattle.coalescing.specs.Facts.{Placed};
ghost use Rattle.coalescing.specs.Pairs.{moved};

use crate::pair::Pair;
use graphs::variables::Variables;
use sets::NodeSet;
use std::array;

// The node of each variable, and the nodes there are.
#[derive(Clone, Copy)]
pub struct Merged {
    pub node: [u16; 448],
    pub nodes: NodeSet,
    ghost whole: { length node ≡ 448 },
    ghost placed: { Placed node },
}

impl Merged {
    // Each variable as a node for itself.
    pub(crate) fn apart(nodes: NodeSet) -> Merged
        ensures { (result.node ≡ range 448 0) × (result.nodes ≡ nodes) }
    {
        Merged {
            node: array::from_fn(|v| v as u16),
            nodes,
        }
    }

    // The node of variable v.
    pub(crate) fn node_of(&self, variables: &Variables, v: u16) -> usize
        ensures exact { result ≡ slice_index_or (take variables.now.count self.now.node) v v }
        ensures placed { v < 448 → result < 448 }
    {
        let known = &self.node[..variables.count];
        known.get(v as usize).copied().unwrap_or(v) as usize
    }

    // The nodes when a pair is one.
    pub(crate) fn after(&self, pair: Pair) -> Merged
        ensures { (result.node ≡ map (moved pair.low pair.high) self.now.node) × (members result.nodes ≡ minus (members self.now.nodes) (single pair.high)) }
    {
        let mut node = self.node;
        // `map` would not tell that the closure sees the same pair at each of its calls.
        for v in node.iter_mut() {
            *v = pair.moved(*v);
        }
        Merged {
            node,
            nodes: self.nodes.without(pair.high),
        }
    }
}
