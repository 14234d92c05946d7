#![tactic(auto)]

pub mod draft;
pub mod token;

ghost use Rattle.std.specs.Prelude.{◌≡◌, take, slice_index, slice_index_or};
ghost use Rattle.sets.specs.Words.{members};
ghost use Rattle.source.specs.Results.{program_of};
ghost use Rattle.compiling.specs.Working.{admitted, place_of as place_in, spilled, unspilled as unspilled_of};
ghost use Rattle.drafts.specs.Drafts.{working_of, coloured_of};

use compiling::Place;
use draft::Draft;
use lists::Few;
use rows::Row;
use sets::NodeSet;
use source::program::Source;
use token::Colouring;

impl Draft {
    // The draft of an admitted program, before its first round.
    #[inline(always)]
    pub fn of(source: Source) -> Draft
        ensures { working_of result ≡ admitted (program_of source) }
    {
        // Rows are written where they stand: a list that is made before it is put there is copied.
        let mut draft = Draft {
            source,
            rows: Few::new(),
            classes: Few::of(&source.classes[..source.vars]),
            registers: Few::of(&[0; 64][..source.vars]),
            rounds: 0,
            slots: 0,
            places: Few::of(&[Place::OPEN; 64][..source.vars]),
        };
        draft.rows.extend(&source.rows[..source.count]);
        draft
    }

    // The rows of the program.
    pub fn rows(&self) -> &[Row]
        ensures { result.now ≡ (working_of self.now).rows }
    {
        self.rows.as_slice()
    }

    // The class of variable v, or 0 past the last.
    pub fn class_of(&self, v: usize) -> u8
        ensures { result ≡ slice_index (working_of self.now).classes v }
    {
        self.classes.as_slice().get(v).copied().unwrap_or(0)
    }

    // The register of variable v of a coloured program, or 0 past the last.
    pub fn register_of(&self, v: usize) -> u8
        ensures { result ≡ slice_index (coloured_of self.now).registers v }
    {
        self.registers.as_slice().get(v).copied().unwrap_or(0)
    }

    // The place of variable v. Past those of the source, no round has placed it.
    pub fn place_of(&self, v: usize) -> Place
        ensures { result ≡ place_in (working_of self.now).places v }
    {
        self.places
            .as_slice()
            .get(v)
            .copied()
            .unwrap_or(Place::OPEN)
    }

    // Whether a variable stands in a slot. Only those of the source can.
    pub fn is_spilled(&self, v: usize) -> bool
        ensures { result ≡ spilled (working_of self.now).places v }
    {
        self.place_of(v).is_slot()
    }

    // The variables that are nodes of the next round: those without a slot.
    pub fn unspilled(&self) -> NodeSet
        ensures { members result ≡ unspilled_of (working_of self.now) }
    {
        let mut set = NodeSet::EMPTY;
        for v in 0..self.classes.len() {
            if !self.is_spilled(v) {
                set = set.with(v);
            }
        }
        set
    }
}

impl Colouring {
    // The node of variable v, where the first n have nodes; another stands for itself.
    pub fn node_of(&self, n: usize, v: usize) -> usize
        ensures { result ≡ slice_index_or (take n self.now.node) v v }
    {
        self.node[..n.min(448)]
            .get(v)
            .map_or(v, |node| *node as usize)
    }

    // The register of a node, where the first n have registers; 0 for another.
    pub fn register_of(&self, n: usize, node: usize) -> u8
        ensures { result ≡ slice_index (take n self.now.registers) node }
    {
        self.registers[..n.min(448)].get(node).copied().unwrap_or(0)
    }
}
