#![tactic(auto)]

pub mod graph;
pub mod kinds;

ghost use Rattle.std.specs.Prelude.{◌≡◌, ◌≤◌, Bool, not, length, drop};
ghost use Rattle.source.specs.Results.{program_of};
ghost use Rattle.admission.specs.Kinds.{reached, sure};
ghost use Rattle.admission.specs.Admission.{fact_fault as fact_fault_of, earliest, unless_fault};
ghost use Rattle.admission.specs.Memory.{parts, short_part as short_part_of, answer, answered};
ghost use Rattle.admission.specs.Results.{as_admitted};

use facts::{incoming, solve};
use faults::ProgramFault;
use graph::Graph;
use kinds::{Initialisation, Reach};
use sets::{NodeSet, clear};
use source::program::Source;
use source::read;

// How many node sets the parts of working memory have at the least: the first, for facts, and the other two, for edges.
pub const FACT_SETS: usize = 512;

pub const EDGE_SETS: usize = 448;

// The lowest row that is not reached.
fn first_unreached(graph: Graph, facts: &mut [NodeSet], comers: &mut [NodeSet]) -> Option<usize>
    requires { (length graph.rows.now ≤ 128) × ((128 ≤ length facts.old) × (128 ≤ length comers.old)) }
    ensures row { result ≡ earliest (λ i. not (reached graph.entry.rows.now i)) (length graph.entry.rows.now) }
    ensures past { (drop 128 facts.new ≡ drop 128 facts.old) × (drop 128 comers.new ≡ drop 128 comers.old) }
{
    let _ = solve(&Reach { graph }, facts, comers);
    for (i, fact) in facts[..graph.rows.len()].iter().enumerate() {
        if fact.is_empty() {
            return Some(i);
        }
    }
    None
}

// The lowest row that reads what may be unwritten.
fn first_unsure(
    graph: Graph,
    vars: usize,
    facts: &mut [NodeSet],
    comers: &mut [NodeSet],
) -> Option<usize>
    requires { (length graph.rows.now ≤ 128) × ((vars ≤ 64) × ((128 ≤ length facts.old) × (128 ≤ length comers.old))) }
    ensures row { result ≡ earliest (λ i. not (sure vars graph.entry.rows.now i)) (length graph.entry.rows.now) }
    ensures past { (drop 128 facts.new ≡ drop 128 facts.old) × (drop 128 comers.new ≡ drop 128 comers.old) }
{
    let kind = Initialisation { graph, vars };
    let _ = solve(&kind, facts, comers);
    for (i, row) in graph.rows.iter().enumerate() {
        let written = incoming(&kind, facts, comers, i);
        if !row.reads().minus(written).is_empty() {
            return Some(i);
        }
    }
    None
}

// The first fault of the rows together. The facts are worked out in the first sets of the memory.
fn fact_fault(
    source: &Source,
    facts: &mut [NodeSet],
    comers: &mut [NodeSet],
) -> Result<(), ProgramFault>
    requires { (128 ≤ length facts.old) × (128 ≤ length comers.old) }
    ensures fault { result ≡ unless_fault (fact_fault_of (program_of source.now)) }
    ensures past { (drop 128 facts.new ≡ drop 128 facts.old) × (drop 128 comers.new ≡ drop 128 comers.old) }
{
    let rows = &source.rows[..source.count];
    let graph = Graph { rows };
    if let Some(lost) = first_unreached(graph, facts, comers) {
        return Err(ProgramFault::Unreached(lost as u16));
    }
    if let Some(raw) = first_unsure(graph, source.vars, facts, comers) {
        return Err(ProgramFault::Unwritten(raw as u16));
    }
    Ok(())
}

// The fault of the lowest part of working memory that is too short.
pub fn short_part(
    first: &[NodeSet],
    second: &[NodeSet],
    third: &[NodeSet],
) -> Result<(), ProgramFault>
    ensures { result ≡ unless_fault (short_part_of (parts first.now second.now third.now)) }
{
    if first.len() < FACT_SETS {
        return Err(ProgramFault::Memory(0));
    }
    if second.len() < EDGE_SETS {
        return Err(ProgramFault::Memory(1));
    }
    if third.len() < EDGE_SETS {
        return Err(ProgramFault::Memory(2));
    }
    Ok(())
}

// The program of a file, if its rows are all reached and read only what is surely written, else the first fault.
// The memory is three parts of at least 512, 448 and 448 node sets; what it holds counts for nothing.
pub fn admitted(
    file: &[u8],
    first: &mut [NodeSet],
    second: &mut [NodeSet],
    third: &mut [NodeSet],
) -> Result<Source, ProgramFault>
    ensures { answer (as_admitted result) (parts first.new second.new third.new) ≡ answered file.now (parts first.old second.old third.old) }
{
    short_part(first, second, third)?;
    let source = read(file)?;
    let judged = fact_fault(&source, first, second);
    clear(first, FACT_SETS);
    clear(second, EDGE_SETS);
    clear(third, EDGE_SETS);
    judged?;
    Ok(source)
}

#[cfg(test)]
mod tests {
    use crate::graph::Graph;
    use crate::kinds::Reach;
    use facts::{FactKind, WideFactKind};
    use rows::{Op, Row};

    #[test]
    fn the_ways_of_a_row_that_branches(rt: HostRuntime) {
        let branch = Row {
            op: Op::Less,
            target: 2,
            ..Row::END
        };
        let rows = [branch, Row::END, Row::END];
        let reach = Reach {
            graph: Graph { rows: &rows },
        };
        let mut ways = FactKind::ways(&reach, 0);
        assert_eq!(rt; ways.next(), Some(2));
        assert_eq!(rt; ways.next(), Some(1));
        assert_eq!(rt; ways.next(), None);
        assert_eq!(rt; FactKind::ways(&reach, 1).next(), None);
        assert_eq!(rt; WideFactKind::ways(&reach, 0).count(), 2);
    }
}
