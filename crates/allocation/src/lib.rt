#![tactic(auto)]

ghost use Rattle.std.specs.Prelude.{◌≡◌, ◌≤◌, length, drop};
ghost use Rattle.admission.specs.Memory.{parts, emptied};
ghost use Rattle.allocation.specs.Allocation.{ShowsRound, afterwards};

use admission::{EDGE_SETS, FACT_SETS, short_part};
use coalescing::coalesce;
use drafts::token::Colouring;
use graphs::Weighing;
use graphs::variables::Variables;
use interference::interfere;
use registers::RegisterFile;
use rows::lines::Lines;
use selection::{hoped, select, spilled};
use sets::{NodeSet, clear};
use simplify::simplify;

// A round on a working program: its register file, its variables, those that are nodes, and its rows.
#[derive_where(Clone, Copy)]
pub struct Round<'a, 'b, F> {
    pub file: &'a F,
    pub variables: &'a Variables,
    pub nodes: NodeSet,
    pub lines: Lines<'b>,
}

impl<F: RegisterFile> Round<'_, '_, F> {
    // With one set of edges and one of hard edges for each variable, whatever they held.
    fn colour(&self, live: &mut [NodeSet], edges: &mut [NodeSet], hard: &mut [NodeSet]) -> Colouring
        requires live { 512 ≤ length live.old }
        requires edges { length edges.old ≡ self.now.variables.now.count }
        requires hard { length hard.old ≡ self.now.variables.now.count }
        ensures shows { ShowsRound (F.RegisterFile.model self.now.file.now) self.now.variables.now self.now.nodes self.now.lines.rows.now result }
        ensures past { drop 512 live.new ≡ drop 512 live.old }
    {
        let Round {
            file,
            variables,
            nodes,
            lines,
        } = *self;
        let n = variables.count;
        // What is lent has room for the facts of all rows.
        let _ = interfere(lines, live, edges, hard);
        let merged = coalesce(file, variables, lines, nodes, edges, hard);
        let weighing = Weighing {
            file,
            variables,
            edges,
        };
        let removals = simplify(weighing, lines, &merged.node[..n], merged.nodes);
        let order = removals.as_slice();
        let registers = select(file, variables.as_slice(), edges, order);
        Colouring {
            node: merged.node,
            registers,
            spilled: spilled(file, merged.nodes, &registers[..n]),
            hoped: hoped(order),
        }
    }

    // In lent memory, which is left empty.
    fn colour_within(
        &self,
        live: &mut [NodeSet],
        edges: &mut [NodeSet],
        hard: &mut [NodeSet],
    ) -> Colouring
        requires live { 512 ≤ length live.old }
        requires edges { 448 ≤ length edges.old }
        requires hard { 448 ≤ length hard.old }
        ensures shows { ShowsRound (F.RegisterFile.model self.now.file.now) self.now.variables.now self.now.nodes self.now.lines.rows.now result }
        ensures memory { parts live.new edges.new hard.new ≡ emptied (parts live.old edges.old hard.old) }
    {
        let n = self.variables.count;
        let colouring = self.colour(live, &mut edges[..n], &mut hard[..n]);
        clear(live, FACT_SETS);
        clear(edges, EDGE_SETS);
        clear(hard, EDGE_SETS);
        colouring
    }

    // In memory of its own.
    fn colour_apart(&self) -> Colouring
        ensures { ShowsRound (F.RegisterFile.model self.now.file.now) self.now.variables.now self.now.nodes self.now.lines.rows.now result }
    {
        let mut live = [NodeSet::EMPTY; FACT_SETS];
        let mut edges = [NodeSet::EMPTY; EDGE_SETS];
        let mut hard = [NodeSet::EMPTY; EDGE_SETS];
        self.colour_within(&mut live, &mut edges, &mut hard)
    }

    // Liveness, interference, coalescing, simplify, select. It works in the memory lent, of at least 512, 448 and 448
    // node sets, and leaves it empty; memory that is too short it leaves as it was.
    pub fn allocate(
        &self,
        live: &mut [NodeSet],
        edges: &mut [NodeSet],
        hard: &mut [NodeSet],
    ) -> Colouring
        ensures shows { ShowsRound (F.RegisterFile.model self.now.file.now) self.now.variables.now self.now.nodes self.now.lines.rows.now result }
        ensures memory { parts live.new edges.new hard.new ≡ afterwards (parts live.old edges.old hard.old) }
    {
        if short_part(live, edges, hard).is_err() {
            return self.colour_apart();
        }
        self.colour_within(live, edges, hard)
    }
}
