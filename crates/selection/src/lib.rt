#![tactic(auto)]

ghost use Rattle.std.specs.Prelude.{◌≡◌, ℕ, ◌<◌, ◌≤◌, not, ◌&&◌, length, take, if◌then◌else◌, nat_eq, nat_lt, find};
ghost use Rattle.std.specs.List.{range_with_len};
ghost use Rattle.counting.specs.Counting.{any};
ghost use Rattle.sets.specs.Sets.{has};
ghost use Rattle.sets.specs.Words.{members, sets_of};
ghost use Rattle.rounds.specs.Interference.{Graph};
ghost use Rattle.rounds.specs.Select.{register_of, selected};
ghost use Rattle.rounds.specs.Round.{those, hoped_for};
ghost use Rattle.selection.specs.Occupants.{vacant, Settled};

use graphs::beside;
use registers::RegisterFile;
use rounds::Removed;
use sets::NodeSet;

// Whether two sets have no member in common.
fn are_apart(a: NodeSet, b: NodeSet) -> bool
    ensures { result ≡ not (any (λ k. has (members a) k && has (members b) k) 448) }
{
    a.small();
    b.small();
    a.meet(b).is_empty()
}

// A set with v, or without it: whether v is inside is reckoned, and a branch at each caller would say no more.
fn placed(set: NodeSet, v: usize, inside: bool) -> NodeSet
    ensures { (k : ℕ) → k < 448 → has (members result) k ≡ (if nat_eq v k then inside else has (members set) k) }
{
    if inside { set.with(v) } else { set.without(v) }
}

// For each register of a file its occupants: the nodes whose register overlaps it.
#[derive(Drop)]
struct Occupants<'a, F> {
    file: &'a F,
    sets: [NodeSet; 64],
}

impl<'a, F: RegisterFile> Occupants<'a, F> {
    // Whether register r is of a class and has no occupant among the neighbours.
    fn is_vacant(&self, r: usize, class: u8, neighbours: NodeSet) -> bool
        ensures { result ≡ vacant (F.RegisterFile.model self.now.file.now) self.now.sets class (members neighbours) r }
    {
        let occupants = self.sets.get(r).copied().unwrap_or(NodeSet::EMPTY);
        self.file.belongs(r, class) && are_apart(neighbours, occupants)
    }

    // The lowest vacant register.
    fn lowest_vacant(&self, class: u8, neighbours: NodeSet) -> Option<usize>
        ensures { result ≡ find (vacant (F.RegisterFile.model self.now.file.now) self.now.sets class (members neighbours)) (range_with_len 0 (F.RegisterFile.model self.now.file.now).count) }
    {
        (0..self.file.registers()).find(|&r| self.is_vacant(r, class, neighbours))
    }

    // Node v takes register s: it becomes an occupant of every register that overlaps s, and of no other.
    fn settle(&mut self, v: usize, s: usize)
        ensures settled { Settled (F.RegisterFile.model self.old.file.now) v s self.old.sets self.new.sets }
        ensures file { self.new.file ≡ self.old.file }
    {
        let file = self.file;
        for (r, set) in self.sets[..file.registers()].iter_mut().enumerate() {
            *set = placed(*set, v, file.overlaps(r, s));
        }
    }
}

// The register of each node when all have returned, the last one removed first. The number of
// registers stands for none, as in the definition `selected`: the rows and the record keep it so.
pub fn select<F: RegisterFile>(
    file: &F,
    classes: &[u8],
    edges: &[NodeSet],
    order: &[Removed],
) -> [u8; 448]
    ensures { length classes.now ≤ 448 → (g : Graph) → g.classes ≡ classes.now → g.edges ≡ sets_of edges.now → take (length classes.now) result ≡ selected (F.RegisterFile.model file.now) g order.now }
{
    let none = file.registers();
    let mut registers = [none as u8; 448];
    let mut occupants = Occupants {
        file,
        sets: [NodeSet::EMPTY; 64],
    };
    for removed in order.iter().rev() {
        let v = removed.node as usize;
        if v < 448 && v < classes.len() {
            let vacant = occupants.lowest_vacant(classes[v], beside(edges, v));
            let s = vacant.unwrap_or(none);
            registers[v] = s as u8;
            occupants.settle(v, s);
        }
    }
    registers
}

// The nodes of a set that have no register.
pub fn spilled<F: RegisterFile>(file: &F, nodes: NodeSet, registers: &[u8]) -> NodeSet
    ensures { length registers.now ≤ 448 → members result ≡ those (λ v. has (members nodes) v && not (nat_lt (register_of (F.RegisterFile.model file.now) registers.now v) (F.RegisterFile.model file.now).count)) (length registers.now) }
{
    let count = file.registers();
    let mut without = NodeSet::empty();
    for (v, &r) in registers.iter().enumerate() {
        if nodes.contains(v) && r as usize >= count {
            without = without.with(v);
        }
    }
    without
}

// The nodes that were removed in hope.
pub fn hoped(order: &[Removed]) -> NodeSet
    ensures { (v : ℕ) → v < 448 → has (members result) v ≡ hoped_for order.now v }
{
    let mut set = NodeSet::empty();
    for removed in order.iter().rev() {
        set = placed(set, removed.node as usize, removed.hoped);
    }
    set
}
