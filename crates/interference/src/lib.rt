#![tactic(auto)]

pub mod kind;

ghost use Rattle.std.specs.Prelude.{◌≡◌, ◌<◌, true, List, ◌++◌, map, length, take, is_ok, nat_le};
ghost use Rattle.sets.specs.Sets.{when};
ghost use Rattle.rows.specs.Rows.{shape, copies, reads, writes, set_of};
ghost use Rattle.rounds.specs.Liveness.{live_before, live_after};
ghost use Rattle.rounds.specs.Interference.{Reason, reason, reasons};
ghost use Rattle.interference.specs.Building.{Joined, Neighbours, Answers};

use admission::graph::Graph;
use facts::{NoRoom, incoming, list_one, solve};
use kind::Liveness;
use rows::Row;
use rows::lines::Lines;
use sets::{NodeSet, clear};

// Adds d to the set of each of the others, and the others to the set of d, as far as there are sets.
fn join(edges: &mut [NodeSet], d: usize, others: NodeSet)
    requires { d < 448 }
    ensures { Joined d others edges.old edges.new }
{
    for v in others {
        list_one(edges, v, d);
    }
    // An index after a test, for `get_mut` tells nothing of what the slice ends as.
    if d < edges.len() {
        edges[d] = edges[d].union(others);
    }
}

// What a row reads if it only copies: to that the edge is soft.
fn copied(row: Row) -> NodeSet
    ensures { result ≡ when (copies row.op) (set_of (reads row)) }
{
    if row.op.copies() {
        row.reads()
    } else {
        NodeSet::empty()
    }
}

// Joins what a row writes with all else that is live after it.
fn connect(row: Row, live: NodeSet, edges: &mut [NodeSet], hard: &mut [NodeSet])
    requires { (shape row.op).d ≡ true → row.d < 448 }
    ensures edges { (rs : List Reason) → Neighbours (λ r. r.others) rs edges.old → Neighbours (λ r. r.others) (map (reason row live) (writes row) ++ rs) edges.new }
    ensures hard { (rs : List Reason) → Neighbours (λ r. r.hard) rs hard.old → Neighbours (λ r. r.hard) (map (reason row live) (writes row) ++ rs) hard.new }
{
    let shape = row.op.shape();
    let writes = shape.d;
    if !writes {
        return;
    }
    let d = row.d as usize;
    let others = live.minus(NodeSet::empty().with(d));
    let firm = others.minus(copied(row));
    join(edges, d, others);
    join(hard, d, firm);
}

// Connects the rows, the last first, whatever the memory held.
fn build(lines: Lines, live: &[NodeSet], edges: &mut [NodeSet], hard: &mut [NodeSet])
    requires { take (length lines.rows.now) live.now ≡ live_before lines.rows.now }
    ensures edges { let rows = lines.entry.rows.now in Neighbours (λ r. r.others) (reasons rows (live_after rows)) edges.new }
    ensures hard { let rows = lines.entry.rows.now in Neighbours (λ r. r.hard) (reasons rows (live_after rows)) hard.new }
{
    clear(edges, edges.len());
    clear(hard, hard.len());
    let rows = lines.rows;
    let kind = Liveness {
        graph: Graph { rows },
    };
    for (i, row) in rows.iter().enumerate().rev() {
        let after = incoming(&kind, live, &[], i);
        connect(*row, after, edges, hard);
    }
}

// What is live before each row of a working program, and which variables may not share a register: one set for each row,
// and in both others one for each variable. There is no room if there are fewer sets than rows.
pub fn interfere(
    lines: Lines,
    live: &mut [NodeSet],
    edges: &mut [NodeSet],
    hard: &mut [NodeSet],
) -> Result<(), NoRoom>
    ensures room { is_ok result ≡ nat_le (length lines.entry.rows.now) (length live.old) }
    ensures answer { Answers (is_ok result) lines.entry.rows.now live.old live.new edges.old edges.new hard.old hard.new }
{
    let kind = Liveness {
        graph: Graph { rows: lines.rows },
    };
    // Liveness flows backward, so no comers are listed in the edges.
    solve(&kind, live, edges)?;
    build(lines, live, edges, hard);
    Ok(())
}
