#![tactic(auto)]

ghost use Rattle.std.specs.Prelude.{◌≡◌, ℕ, ◌^◌, ◌<◌, min, Bool, ◌&&◌, length, ◌==◌, nat_le, nat_lt, slice_index};
ghost use Rattle.std.specs.Iterator.{YieldsFirst, item_count};
ghost use Rattle.counting.specs.Counting.{least};
ghost use Rattle.sets.specs.Sets.{has, single as single_of, union as union_of, meet as meet_of, minus as minus_of, up_to, when, size as size_of};
ghost use Rattle.sets.specs.Rising.{rising, lowest};
ghost use Rattle.sets.specs.Words.{cleared};
ghost use Rattle.sets.specs.Walks.{left_of};

use std::marker::Model;

// A set of numbers below 448: the variables and temporaries of a working program, or rows of a source program.
#[derive(Clone, Copy)]
pub struct NodeSet {
    words: [u64; 7],
}

// Clauses see the set as one number, whose binary digits say who is a member.
impl Model for NodeSet {
    ghost use Rattle.std.specs.Prelude.{ℕ};

    ghost Value = { ℕ };

    ghost use Rattle.sets.specs.Words.{joined, IsWords, split};
    ghost use Rattle.sets.specs.Splitting.{split_joined};

    ghost view = { λ s. joined s.words };

    ghost invariant = { λ s. IsWords s.words };

    ghost inverse = { λ x. record { words = split 7 x } };

    ghost inverse_ok = { λ s h. split_joined s h };
}

impl PartialEq for NodeSet {
    ghost use Rattle.std.specs.Prelude.{◌==◌};
    ghost use Rattle.std.proofs.Common.{rules};
    ghost use Rattle.std.specs.Cmp.Rules.{comparing};

    ghost eq = { ◌==◌ };

    ghost laws = { Prim.search (comparing, rules) };

    fn eq(&self, other: &NodeSet) -> bool {
        self.words == other.words
    }
}

impl Eq for NodeSet {
    ghost use Rattle.std.proofs.Common.{rules};
    ghost use Rattle.std.specs.Cmp.Rules.{comparing};

    ghost laws = { Prim.search (comparing, rules) };
}

impl NodeSet {
    // How many numbers a set can tell apart: they are those below it.
    pub const CAPACITY: usize = 448;

    pub const EMPTY: NodeSet = NodeSet { words: [0; 7] };

    pub fn empty() -> NodeSet
        ensures { result ≡ 0 }
    {
        NodeSet::EMPTY
    }

    // The numbers below n.
    pub fn up_to(n: usize) -> NodeSet
        ensures { result ≡ up_to (min n 448) }
    {
        let mut words = [0; 7];
        for (i, w) in words.iter_mut().enumerate() {
            *w = low_bits(n.saturating_sub(64 * i));
        }
        NodeSet { words }
    }

    // No member is 448 or more.
    pub fn small(&self)
        ensures { self.now < 2 ^ 448 }
    {
        let _ = &self.words;
    }

    pub fn contains(&self, v: usize) -> bool
        ensures { result ≡ has self.now v }
    {
        let w = self.words.get(v / 64).copied().unwrap_or(0);
        (w >> (v % 64)) & 1 == 1
    }

    // The set with v too; a v of 448 or more is left out.
    pub fn with(mut self, v: usize) -> NodeSet
        ensures { result ≡ union_of self (when (nat_lt v 448) (single_of v)) }
    {
        if v < NodeSet::CAPACITY {
            self.words[v / 64] |= 1 << (v % 64);
        }
        self
    }

    pub fn without(self, v: usize) -> NodeSet
        ensures { result ≡ minus_of self (when (nat_lt v 448) (single_of v)) }
    {
        self.minus(NodeSet::EMPTY.with(v))
    }

    pub fn union(self, other: NodeSet) -> NodeSet
        ensures { result ≡ union_of self other }
    {
        NodeSet {
            words: by_words(self.words, other.words, |a, b| a | b),
        }
    }

    pub fn meet(self, other: NodeSet) -> NodeSet
        ensures { result ≡ meet_of self other }
    {
        NodeSet {
            words: by_words(self.words, other.words, |a, b| a & b),
        }
    }

    pub fn minus(self, other: NodeSet) -> NodeSet
        ensures { result ≡ minus_of self other }
    {
        NodeSet {
            words: by_words(self.words, other.words, |a, b| a & !b),
        }
    }

    pub fn is_empty(&self) -> bool
        ensures { result ≡ (self.now == 0) }
    {
        *self == NodeSet::EMPTY
    }

    // How many members the set has.
    pub fn len(&self) -> u32
        ensures { result ≡ size_of 448 self.now }
    {
        let mut n: u32 = 0;
        for w in &self.words {
            n += w.count_ones();
        }
        n
    }

    // The members that pass a test.
    pub fn filter<T: Test>(self, test: &T) -> NodeSet
        ensures { (k : ℕ) → has result k ≡ (has self k && T.Test.passes test.now k) }
    {
        let mut kept = NodeSet::empty();
        for v in self {
            if test.passes(v) {
                kept = kept.with(v);
            }
        }
        kept
    }

    // The lowest member.
    pub fn first(self) -> Option<usize>
        ensures { result ≡ lowest self }
    {
        self.into_iter().next()
    }

    // The lowest member that is at least `from`, or 448.
    pub fn next(&self, from: usize) -> usize
        ensures { result ≡ least (λ k. nat_le from k && has self.now k) 448 }
    {
        let rest = self.minus(NodeSet::up_to(from));
        rest.first().unwrap_or(NodeSet::CAPACITY)
    }
}

// A test that can be asked of every number.
pub trait Test {
    ghost passes: { Self → ℕ → Bool };

    fn passes(&self, v: usize) -> bool
        ensures { result ≡ passes self.now v };
}

// The members of a set from the lowest on: those of word `at` and of the words after it.
#[derive(Clone, Copy)]
pub struct Walk {
    words: [u64; 7],
    at: usize,
}

impl IntoIterator for NodeSet {
    type Item = usize;

    type IntoIter = Walk;

    ghost into_iter_gives = { λ s r. (left_of r ≡ rising s) × (s < 2 ^ 448) };

    fn into_iter(self) -> Walk {
        let words = self.words;
        Walk { words, at: 0 }
    }
}

impl Iterator for Walk {
    type Item = usize;

    ghost next_gives = { YieldsFirst left_of };

    ghost remaining = { item_count left_of };

    fn next(&mut self) -> Option<usize> {
        while self.at < self.words.len() {
            let w = self.words[self.at];
            if w != 0 {
                self.words[self.at] = w & (w - 1);
                return Some(64 * self.at + w.trailing_zeros() as usize);
            }
            self.at += 1;
        }
        None
    }
}

// What f makes of each word of `a` and the word of `b` at its place.
fn by_words<F: Fn(u64, u64) -> u64>(a: [u64; 7], b: [u64; 7], f: F) -> [u64; 7]
    requires { F.IsAlwaysCallable f }
    ensures { (k : ℕ) → k < 7 → F.post f (slice_index a k) (slice_index b k) (slice_index result k) }
{
    let mut words = a;
    for (i, w) in words.iter_mut().enumerate() {
        *w = f(*w, b[i]);
    }
    words
}

// The word whose lowest n bits are set.
fn low_bits(n: usize) -> u64
    ensures { result ≡ up_to (min n 64) }
{
    if n >= 64 {
        return u64::MAX;
    }
    (1 << n) - 1
}

// Empties the first n sets, or all where there are fewer; the rest stay as they are.
pub fn clear(sets: &mut [NodeSet], n: usize)
    ensures { sets.new ≡ cleared (min n (length sets.old)) sets.old }
{
    let n = n.min(sets.len());
    sets[..n].fill(NodeSet::EMPTY);
}
