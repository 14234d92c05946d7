#![tactic(auto)]

ghost use Rattle.std.specs.Prelude.{◌≡◌, ℕ, ◌<◌, ◌≤◌, true, false, not, List, [], length, take, drop, set, is_ok, ◌==◌, slice_index, slice_index_or, nat_lt};
ghost use Rattle.std.specs.Iterator.{AlwaysYields, Drains, IsFinite};
ghost use Rattle.rows.specs.Rows.{only, rows_left};
ghost use Rattle.facts.specs.Flow.{Flow, Lawful, rows as rows_of, feeders, turns, enters, at, gather, incoming as incoming_of, yields, sweep as swept, solved};
ghost use Rattle.facts.specs.Solving.{Listing, comer_sets, suffices, Tells, Answers};

use rows::Ways;
use sets::{NodeSet, clear};

// A kind of fact over the rows of a program, each of which goes on to two rows at most, and the laws under which its equations
// have a least solution.
pub trait FactKind {
    ghost flow: { Self → Flow };

    // A member and not a law, so that a kind may borrow the rows it speaks of.
    ghost lawful: { (k : Self) → Lawful (flow k) };

    fn rows(&self) -> usize
        ensures { result ≡ rows_of (flow self.now) };

    // The rows that row i may go on to.
    fn ways(&self, i: usize) -> Ways
        ensures { rows_left result ≡ slice_index_or (flow self.now).next i [] };

    fn backward(&self) -> bool
        ensures { result ≡ (flow self.now).backward };

    fn entry(&self) -> NodeSet
        ensures { result ≡ (flow self.now).entry };

    fn least(&self) -> NodeSet
        ensures { result ≡ (flow self.now).least };

    fn join(&self, a: NodeSet, b: NodeSet) -> NodeSet
        ensures { result ≡ (flow self.now).join a b };

    fn step(&self, i: usize, x: NodeSet) -> NodeSet
        ensures { result ≡ (flow self.now).step i x };
}

// A kind of fact over rows that may go on to any number of rows, with the same laws. Each `FactKind` is one.
pub trait WideFactKind {
    ghost flow: { Self → Flow };

    ghost lawful: { (k : Self) → Lawful (flow k) };

    fn rows(&self) -> usize
        ensures { result ≡ rows_of (flow self.now) };

    // Hands out rows, one after another.
    type Ways: Iterator<Item = usize> + Drop;

    // The rows that row i may go on to, however many.
    fn ways(&self, i: usize) -> Self::Ways
        ensures can { Self.Ways.can_next result }
        ensures ends { IsFinite (Self.Ways.remaining result) }
        ensures rows { AlwaysYields Self.Ways.next_gives (λ j. j) result (slice_index_or (flow self.now).next i []) };

    fn backward(&self) -> bool
        ensures { result ≡ (flow self.now).backward };

    fn entry(&self) -> NodeSet
        ensures { result ≡ (flow self.now).entry };

    fn least(&self) -> NodeSet
        ensures { result ≡ (flow self.now).least };

    fn join(&self, a: NodeSet, b: NodeSet) -> NodeSet
        ensures { result ≡ (flow self.now).join a b };

    fn step(&self, i: usize, x: NodeSet) -> NodeSet
        ensures { result ≡ (flow self.now).step i x };
}

impl<K: FactKind> WideFactKind for K {
    ghost flow = { K.flow };

    ghost lawful = { K.lawful };

    type Ways = Ways;

    fn rows(&self) -> usize {
        FactKind::rows(self)
    }

    fn ways(&self, i: usize) -> Ways {
        FactKind::ways(self, i)
    }

    fn backward(&self) -> bool {
        FactKind::backward(self)
    }

    fn entry(&self) -> NodeSet {
        FactKind::entry(self)
    }

    fn least(&self) -> NodeSet {
        FactKind::least(self)
    }

    fn join(&self, a: NodeSet, b: NodeSet) -> NodeSet {
        FactKind::join(self, a, b)
    }

    fn step(&self, i: usize, x: NodeSet) -> NodeSet {
        FactKind::step(self, i, x)
    }
}

// The memory lent has too few sets for the rows.
#[derive(Clone, Copy, PartialEq, Eq)]
pub struct NoRoom;

// What enters at row i from outside.
fn entering<K: WideFactKind>(kind: &K, i: usize) -> NodeSet
    ensures { result ≡ enters (K.WideFactKind.flow kind.now) i }
{
    let last = kind.rows().saturating_sub(1);
    let first = if kind.backward() { last } else { 0 };
    if i == first {
        kind.entry()
    } else {
        kind.least()
    }
}

fn fact_at<K: WideFactKind>(kind: &K, facts: &[NodeSet], j: usize) -> NodeSet
    ensures { result ≡ at (K.WideFactKind.flow kind.now) facts.now j }
{
    facts.get(j).copied().unwrap_or_else(|| kind.least())
}

// What comes to row i from the rows handed out, one after another.
fn gathered<K: WideFactKind, I: Iterator<Item = usize> + Drop>(
    kind: &K,
    facts: &[NodeSet],
    rows: I,
    i: usize,
) -> NodeSet
    requires can { I.can_next rows }
    requires ends { IsFinite (I.remaining rows) }
    ensures { let f = K.WideFactKind.flow kind.now in (js : List ℕ) × Drains I.next_gives rows js × (result ≡ gather f.join (at f facts.now) (enters f i) js) }
{
    let mut all = entering(kind, i);
    for j in rows {
        let handed = fact_at(kind, facts, j);
        all = kind.join(all, handed);
    }
    all
}

// What comes to row i where the rows keep the facts of `facts`; of a row for which there is no room in `comers` only what enters.
pub fn incoming<K: WideFactKind>(
    kind: &K,
    facts: &[NodeSet],
    comers: &[NodeSet],
    i: usize,
) -> NodeSet
    ensures { let f = K.WideFactKind.flow kind.now in Tells f comers.now → result ≡ incoming_of f (feeders f) (at f (take (rows_of f) facts.now)) i }
{
    let n = kind.rows();
    let held = &facts[..n.min(facts.len())];
    if kind.backward() {
        return gathered(kind, held, kind.ways(i), i);
    }
    let told = &comers[..n.min(comers.len())];
    let set = told.get(i).copied().unwrap_or(NodeSet::EMPTY);
    gathered(kind, held, set.into_iter(), i)
}

// The row whose turn is the k-th.
fn turn<K: WideFactKind>(kind: &K, k: usize) -> usize
    requires { k < rows_of (K.WideFactKind.flow kind.now) }
    ensures { result ≡ slice_index (turns (K.WideFactKind.flow kind.now)) k }
{
    if kind.backward() {
        return kind.rows() - 1 - k;
    }
    k
}

// A kind whose equations are solved, and memory that holds the rows that come to each row.
#[derive(Drop)]
struct Solver<'a, K: WideFactKind> {
    kind: &'a K,
    comers: &'a [NodeSet],
    ghost told: { Tells (K.WideFactKind.flow kind.now) comers.now },
}

impl<'a, K: WideFactKind> Solver<'a, K> {
    // Keeps for row i what it yields now, and says whether that alters anything.
    fn visit(&self, facts: &mut [NodeSet], i: usize) -> bool
        requires rows { length facts.old ≡ rows_of (K.WideFactKind.flow self.now.kind.now) }
        requires inside { i < length facts.old }
        ensures yielded { let f = K.WideFactKind.flow self.now.kind.now in facts.new ≡ set facts.old i (yields f (feeders f) (at f facts.old) i) }
        ensures fresh { let f = K.WideFactKind.flow self.now.kind.now in result ≡ not (yields f (feeders f) (at f facts.old) i == at f facts.old i) }
    {
        let came = incoming(self.kind, facts, self.comers, i);
        let new = self.kind.step(i, came);
        let old = facts[i];
        facts[i] = new;
        new != old
    }

    // Visits every row once, and says whether that altered anything.
    fn sweep(&self, facts: &mut [NodeSet]) -> bool
        requires { length facts.old ≡ rows_of (K.WideFactKind.flow self.now.kind.now) }
        ensures visited { let f = K.WideFactKind.flow self.now.kind.now in facts.new ≡ (swept f (feeders f) (turns f) facts.old false).kept }
        ensures fresh { let f = K.WideFactKind.flow self.now.kind.now in result ≡ (swept f (feeders f) (turns f) facts.old false).altered }
    {
        let mut altered = false;
        // k counts turns; whether row k has the k-th depends on the direction.
        for k in 0..facts.len() {
            let i = turn(self.kind, k);
            let fresh = self.visit(facts, i);
            altered |= fresh;
        }
        altered
    }

    // Sweeps from the least facts until nothing alters; what the memory held does not count.
    fn settle(&self, facts: &mut [NodeSet])
        requires { length facts.old ≡ rows_of (K.WideFactKind.flow self.now.kind.now) }
        ensures { facts.new ≡ solved (K.WideFactKind.flow self.now.kind.now) }
    {
        facts.fill(self.kind.least());
        while self.sweep(facts) {}
    }
}

// Adds j to the set at place i, if there is one and it can hold j. An index after a test, for `get_mut` tells nothing of what the
// slice ends as.
pub fn list_one(sets: &mut [NodeSet], i: usize, j: usize)
    ensures { Listing sets.old sets.new j (only (nat_lt j 448) i) }
{
    if i < sets.len() {
        sets[i] = sets[i].with(j);
    }
}

// Adds row j to the comers of each row that it goes on to.
fn list_ways<K: WideFactKind>(kind: &K, sets: &mut [NodeSet], j: usize)
    requires { j < 448 }
    ensures { Listing sets.old sets.new j (slice_index_or (K.WideFactKind.flow kind.now).next j []) }
{
    for i in kind.ways(j) {
        list_one(sets, i, j);
    }
}

// Lists the rows that come to each row, whatever the memory held.
fn list_all<K: WideFactKind>(kind: &K, sets: &mut [NodeSet])
    requires rows { length sets.old ≡ rows_of (K.WideFactKind.flow kind.now) }
    requires few { length sets.old ≤ 448 }
    ensures { sets.new ≡ comer_sets (K.WideFactKind.flow kind.now).next }
{
    clear(sets, sets.len());
    // Row j is added to the sets of other rows, so this is no walk over the sets.
    for j in 0..sets.len() {
        list_ways(kind, sets, j);
    }
}

// Lists the comers of a forward kind; a backward one has no use for them.
fn list_comers<K: WideFactKind>(kind: &K, comers: &mut [NodeSet])
    requires { let f = K.WideFactKind.flow kind.now in suffices f (rows_of f) (length comers.old) ≡ true }
    ensures tells { Tells (K.WideFactKind.flow kind.now) comers.new }
    ensures unlent { (K.WideFactKind.flow kind.now).backward ≡ true → comers.new ≡ comers.old }
    ensures untouched { let f = K.WideFactKind.flow kind.now in drop (rows_of f) comers.new ≡ drop (rows_of f) comers.old }
{
    if kind.backward() {
        return;
    }
    let n = kind.rows();
    list_all(kind, &mut comers[..n]);
}

fn memory_suffices<K: WideFactKind>(kind: &K, facts: usize, comers: usize) -> bool
    ensures { result ≡ suffices (K.WideFactKind.flow kind.now) facts comers }
{
    let n = kind.rows();
    n <= facts && (kind.backward() || (n <= comers && n <= NodeSet::CAPACITY))
}

// Solves the equations of a kind in the memory lent, if it suffices: one set for each row, and for a forward kind another.
pub fn solve<K: WideFactKind>(
    kind: &K,
    facts: &mut [NodeSet],
    comers: &mut [NodeSet],
) -> Result<(), NoRoom>
    ensures room { is_ok result ≡ suffices (K.WideFactKind.flow kind.now) (length facts.old) (length comers.old) }
    ensures answer { Answers (is_ok result) (K.WideFactKind.flow kind.now) facts.old facts.new comers.old comers.new }
{
    if !memory_suffices(kind, facts.len(), comers.len()) {
        return Err(NoRoom);
    }
    let n = kind.rows();
    list_comers(kind, comers);
    let solver = Solver { kind, comers };
    solver.settle(&mut facts[..n]);
    Ok(())
}
