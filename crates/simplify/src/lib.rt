#![tactic(auto)]

pub mod removals;
mod removing;

ghost use Rattle.std.specs.Prelude.{◌≡◌, ℕ, ◌+◌, ◌*◌, ◌^◌, ◌<◌, ◌≤◌, ◌++◌, length, take, slice_index, slice_index_or, option_to_list};
ghost use Rattle.sets.specs.Words.{members, sets_of};
ghost use Rattle.rows.specs.Rows.{reads, writes};
ghost use Rattle.rounds.specs.Interference.{Graph};
ghost use Rattle.rounds.specs.Simplify.{members_in, cost as cost_of};
ghost use Rattle.rounds.specs.Round.{order_of};
ghost use Rattle.graphs.specs.Graphs.{classes_of};

use graphs::Weighing;
use registers::RegisterFile;
use removals::Removals;
use removing::Removing;
use rows::Row;
use rows::lines::Lines;
use sets::NodeSet;

// What a place in a row costs, by the row's weight.
const PRICES: [u32; 4] = [1, 10, 100, 1000];

// The node of variable v.
fn node_of(node: &[u16], v: u16) -> u16
    ensures { result ≡ slice_index_or node.now v v }
{
    node.get(v as usize).copied().unwrap_or(v)
}

// Adds the price of a place in a row to the cost of the node that stands there, if any does.
fn charge(place: Option<u16>, price: u32, node: &[u16], costs: &mut [u32])
    requires { (price ≤ 1000) × (((k : ℕ) → slice_index costs.old k ≤ 4000000)) }
    ensures exact { (g : Graph) → g.node ≡ node.now → (k : ℕ) → k < length costs.old → slice_index costs.new k ≡ members_in g k (option_to_list place) * price + slice_index costs.old k }
    ensures small { (k : ℕ) → slice_index costs.new k ≤ slice_index costs.old k + 1000 }
{
    let Some(v) = place else {
        return;
    };
    let at = node_of(node, v) as usize;
    if at < costs.len() {
        costs[at] += price;
    }
}

// Adds the prices of the places of a row.
fn charge_row(row: Row, node: &[u16], costs: &mut [u32])
    requires { (row.weight ≤ 3) × (((k : ℕ) → slice_index costs.old k ≤ 3000000)) }
    ensures exact { (g : Graph) → g.node ≡ node.now → (k : ℕ) → k < length costs.old → slice_index costs.new k ≡ members_in g k (reads row ++ writes row) * 10 ^ row.weight + slice_index costs.old k }
    ensures small { (k : ℕ) → slice_index costs.new k ≤ slice_index costs.old k + 3000 }
{
    let price = PRICES[row.weight as usize];
    charge(row.first_read(), price, node, costs);
    charge(row.second_read(), price, node, costs);
    charge(row.written(), price, node, costs);
}

// The cost of each node that a source variable can be.
fn costs_of(lines: Lines, node: &[u16]) -> [u32; 64]
    ensures { (((g : Graph) → g.node ≡ node.now → (k : ℕ) → k < 64 → slice_index result k ≡ cost_of g lines.entry.rows.now k)) × (length result ≡ 64) }
{
    let mut costs = [0; 64];
    for row in lines.rows {
        charge_row(*row, node, &mut costs);
    }
    costs
}

// The order in which the nodes of a graph are removed.
pub fn simplify<F: RegisterFile>(
    weighing: Weighing<F>,
    lines: Lines,
    node: &[u16],
    nodes: NodeSet,
) -> Removals
    ensures { (g : Graph) → g.classes ≡ classes_of weighing.entry.variables.now → g.node ≡ node.now → g.nodes ≡ members nodes → g.edges ≡ sets_of weighing.entry.edges.now → take result.count result.order ≡ order_of (F.RegisterFile.model weighing.entry.file.now) weighing.entry.variables.now.source lines.entry.rows.now g }
{
    let variables = weighing.variables;
    let costs = costs_of(lines, node);
    let count = nodes.meet(NodeSet::up_to(variables.count)).len();
    let mut removals = Removals::none();
    let mut removing = Removing::begin(weighing, &costs[..variables.source], nodes);
    for i in 0..count {
        let next = removing.next_removed();
        removals.push(next);
        removing = removing.without(next.node as usize);
    }
    removals
}
