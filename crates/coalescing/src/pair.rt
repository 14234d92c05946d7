ghost use Rattle.std.specs.Prelude.{◌≡◌, ◌<◌, min, max, set, MatchOption};
ghost use Rattle.sets.specs.Words.{members, sets_of};
ghost use Rattle.rounds.specs.Coalescing.{renamed, contracted};
ghost use Rattle.coalescing.specs.Pairs.{moved, near_both};

use graphs::beside;
use sets::NodeSet;

// Two nodes that become one: the one with the lower number stays.
#[derive(Clone, Copy)]
pub struct Pair {
    pub low: usize,
    pub high: usize,
    ghost two: { low < high },
    ghost inside: { high < 448 },
}

impl Pair {
    // The nodes x and y, unless they are one already.
    pub fn of(x: usize, y: usize) -> Option<Pair>
        requires { (x < 448) × (y < 448) }
        ensures { MatchOption result (x ≡ y) (λ p. (p.low ≡ min x y) × (p.high ≡ max x y)) }
    {
        if x == y {
            return None;
        }
        Some(Pair {
            low: x.min(y),
            high: x.max(y),
        })
    }

    // The set in which low stands for high.
    pub fn renamed(self, set: NodeSet) -> NodeSet
        ensures { members result ≡ renamed self.low self.high (members set) }
    {
        if set.contains(self.high) {
            return set.without(self.high).with(self.low);
        }
        set
    }

    // The node of a variable when high is in low.
    pub fn moved(self, v: u16) -> u16
        ensures { result ≡ moved self.low self.high v }
    {
        if v as usize == self.high {
            self.low as u16
        } else {
            v
        }
    }

    // The neighbours of both, without these two.
    pub fn beside(self, edges: &[NodeSet]) -> NodeSet
        ensures { members result ≡ near_both self.low self.high (sets_of edges.now) }
    {
        beside(edges, self.low)
            .union(beside(edges, self.high))
            .minus(NodeSet::empty().with(self.low).with(self.high))
    }

    // High goes into low.
    pub fn contract(self, edges: &mut [NodeSet])
        ensures { sets_of edges.new ≡ contracted self.low self.high (sets_of edges.old) }
    {
        let both = self.beside(edges);
        for set in edges.iter_mut() {
            *set = self.renamed(*set);
        }
        put(edges, self.low, both);
        put(edges, self.high, NodeSet::empty());
    }
}

// Past the last place nothing is put. An index after a test, for `get_mut` tells nothing of what the slice ends as.
fn put(sets: &mut [NodeSet], v: usize, by: NodeSet)
    ensures { sets_of sets.new ≡ set (sets_of sets.old) v (members by) }
{
    if v < sets.len() {
        sets[v] = by;
    }
}
