#![tactic(auto)]

mod copies;
pub mod merged;
mod pair;

ghost use Rattle.std.specs.Prelude.{◌≡◌, ℕ, ◌<◌, ◌≤◌, min, max, true, false, not, ◌&&◌, length, take, nat_lt, slice_index_or, MatchOption};
ghost use Rattle.counting.specs.Counting.{range};
ghost use Rattle.sets.specs.Sets.{has};
ghost use Rattle.sets.specs.Words.{members, sets_of};
ghost use Rattle.rounds.specs.Interference.{Graph, beside as beside_of, node_at};
ghost use Rattle.rounds.specs.Pressure.{passes as passes_of};
ghost use Rattle.rounds.specs.Coalescing.{renamed, contracted, merged as merged_of, heavy as heavy_of, mergeable as mergeable_of, copies_in, no_ends, first_mergeable as first_mergeable_of, coalesced};
ghost use Rattle.graphs.specs.declared.variables.Variables.{Variables};
ghost use Rattle.graphs.specs.Graphs.{graph, classes_of, drawn};
ghost use Rattle.rows.specs.Rows.{copies as op_copies};
ghost use Rattle.coalescing.specs.Facts.{Joining};
ghost use Rattle.coalescing.specs.Merges.{graph_of, JoinsEnds};

use copies::Copies;
use graphs::variables::Variables;
use graphs::{Weighing, beside};
use merged::Merged;
use pair::Pair;
use registers::RegisterFile;
use rounds::Ends;
use rows::Row;
use rows::lines::Lines;
use sets::{NodeSet, Test};

// Whether a row copies between variables of the source.
fn is_copy(row: &Row, source: usize) -> bool
    ensures { result ≡ (op_copies row.now.op && (nat_lt row.now.d source && nat_lt row.now.a source)) }
{
    row.op.copies() && (row.d as usize) < source && (row.a as usize) < source
}

fn copies_of(lines: Lines, source: usize) -> Copies
    ensures { take result.count result.ends ≡ copies_in source lines.entry.rows.now }
{
    let mut copies = Copies::none();
    for row in lines.rows {
        if is_copy(row, source) {
            copies.push(Ends { d: row.d, a: row.a });
        }
    }
    copies
}

// A graph over node sets, which is asked what may be merged.
#[derive_where(Clone, Copy)]
struct Merging<'a, F> {
    weighing: Weighing<'a, F>,
    hard: &'a [NodeSet],
    merged: &'a Merged,
}

// Whether a neighbour of the node that a pair becomes fails the test.
#[derive(Drop)]
struct Heavy<'a, F: RegisterFile> {
    weighing: Weighing<'a, F>,
    pair: Pair,
}

impl<'a, F: RegisterFile> Test for Heavy<'a, F> {
    ghost passes = { λ t k. not (passes_of (F.RegisterFile.model t.weighing.file.now) (drawn t.weighing) k (has (renamed t.pair.low t.pair.high (beside_of (sets_of t.weighing.edges.now) k)))) };

    fn passes(&self, k: usize) -> bool {
        let near = self.pair.renamed(self.weighing.beside(k));
        !self.weighing.passes(k, near)
    }
}

impl<'a, F: RegisterFile> Merging<'a, F> {
    // The neighbours of the node that a pair becomes which fail the test.
    fn heavy_beside(&self, pair: Pair) -> NodeSet
        ensures { (h : Graph) → h.classes ≡ classes_of self.now.weighing.variables.now → h.edges ≡ contracted pair.low pair.high (sets_of self.now.weighing.edges.now) → (k : ℕ) → has (members result) k ≡ heavy_of (F.RegisterFile.model self.now.weighing.file.now) h pair.low k }
    {
        let weighing = self.weighing;
        pair.beside(weighing.edges)
            .filter(&Heavy { weighing, pair })
    }

    // The pair of nodes x and y, if they may be merged.
    fn mergeable(&self, x: usize, y: usize) -> Option<Pair>
        requires { (x < 448) × (y < 448) }
        ensures { let g = graph_of self.now.weighing.variables.now self.now.merged.now self.now.weighing.edges.now self.now.hard.now in MatchOption result (mergeable_of (F.RegisterFile.model self.now.weighing.file.now) g x y ≡ false) (λ p. (mergeable_of (F.RegisterFile.model self.now.weighing.file.now) g x y ≡ true) × (p.low ≡ min x y) × (p.high ≡ max x y)) }
    {
        let pair = Pair::of(x, y)?;
        if beside(self.hard, x).contains(y) {
            return None;
        }
        let heavy = self.heavy_beside(pair);
        self.weighing.passes(pair.low, heavy).then_some(pair)
    }

    // The pair of nodes at the two ends of a copy, if they may be merged.
    fn pair_of(&self, copy: Ends) -> Option<Pair>
        requires { (copy.d < 448) × (copy.a < 448) }
        ensures { let g = graph_of self.now.weighing.variables.now self.now.merged.now self.now.weighing.edges.now self.now.hard.now in MatchOption result (mergeable_of (F.RegisterFile.model self.now.weighing.file.now) g (node_at g copy.d) (node_at g copy.a) ≡ false) (λ p. (mergeable_of (F.RegisterFile.model self.now.weighing.file.now) g (node_at g copy.d) (node_at g copy.a) ≡ true) × JoinsEnds g copy p.low p.high) }
    {
        let x = self.merged.node_of(self.weighing.variables, copy.d);
        let y = self.merged.node_of(self.weighing.variables, copy.a);
        self.mergeable(x, y)
    }

    // The pair of the first copy that allows a merge.
    fn first_mergeable(&self, copies: &[Ends]) -> Option<Pair>
        requires { Joining copies.now }
        ensures { let g = graph_of self.now.weighing.variables.now self.now.merged.now self.now.weighing.edges.now self.now.hard.now in let i = first_mergeable_of (F.RegisterFile.model self.now.weighing.file.now) g copies.now in MatchOption result (length copies.now ≤ i) (λ p. (i < length copies.now) × JoinsEnds g (slice_index_or copies.now i no_ends) p.low p.high) }
    {
        for copy in copies {
            if let Some(pair) = self.pair_of(*copy) {
                return Some(pair);
            }
        }
        None
    }
}

// Makes one node of a pair.
fn merge(pair: Pair, merged: &Merged, edges: &mut [NodeSet], hard: &mut [NodeSet]) -> Merged
    ensures { (v : Variables) (x y : ℕ) → pair.low ≡ min x y → pair.high ≡ max x y → graph_of v result edges.new hard.new ≡ merged_of x y (graph_of v merged.now edges.old hard.old) }
{
    pair.contract(edges);
    pair.contract(hard);
    merged.after(pair)
}

fn coalesce_over<F: RegisterFile>(
    file: &F,
    variables: &Variables,
    copies: &[Ends],
    nodes: NodeSet,
    edges: &mut [NodeSet],
    hard: &mut [NodeSet],
) -> Merged
    requires { Joining copies.now }
    ensures { graph_of variables.now result edges.new hard.new ≡ coalesced (F.RegisterFile.model file.now) copies.now variables.now.source (graph (classes_of variables.now) (range variables.now.count 0) (members nodes) (sets_of edges.old) (sets_of hard.old)) }
{
    let mut merged = Merged::apart(nodes);
    for k in 0..variables.source {
        let merging = Merging {
            weighing: Weighing {
                file,
                variables,
                edges,
            },
            hard,
            merged: &merged,
        };
        let Some(pair) = merging.first_mergeable(copies) else {
            return merged;
        };
        merged = merge(pair, &merged, edges, hard);
    }
    merged
}

// Merges the ends of the first copy that allows it, and again from the first, at most as often as the source has variables.
pub fn coalesce<F: RegisterFile>(
    file: &F,
    variables: &Variables,
    lines: Lines,
    nodes: NodeSet,
    edges: &mut [NodeSet],
    hard: &mut [NodeSet],
) -> Merged
    ensures { graph_of variables.now result edges.new hard.new ≡ coalesced (F.RegisterFile.model file.now) (copies_in variables.now.source lines.entry.rows.now) variables.now.source (graph (classes_of variables.now) (range variables.now.count 0) (members nodes) (sets_of edges.old) (sets_of hard.old)) }
{
    let copies = copies_of(lines, variables.source);
    coalesce_over(file, variables, copies.as_slice(), nodes, edges, hard)
}
