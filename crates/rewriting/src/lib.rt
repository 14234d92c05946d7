#![tactic(auto)]

mod page;
mod temporary;

ghost use Rattle.std.specs.Prelude.{◌≡◌, ℕ, ◌+◌, ◌<◌, [], ◌∷◌, ◌++◌, map, length, take};
ghost use Rattle.counting.specs.Counting.{range};
ghost use Rattle.sets.specs.Sets.{has};
ghost use Rattle.sets.specs.Words.{members};
ghost use Rattle.rounds.specs.Round.{Outcome, those};
ghost use Rattle.compiling.specs.Spill.{slot_in};
ghost use Rattle.compiling.specs.Rewrite.{inner, block, blocks, replaced, all_replaced, ticket, rewritten_by};
ghost use Rattle.drafts.specs.Drafts.{working_of, Shows, ticket_of};
ghost use Rattle.layout.specs.Layouts.{Holds};
ghost use Rattle.rewriting.specs.Pages.{Room, order_in, class_in, shares, place_spilled};
ghost use Rattle.rewriting.specs.Temporaries.{temporary, temporaries as temporaries_of, noted, all_noted, loaded, stored, renamed, rows_with, Notes};
ghost use Rattle.rewriting.specs.Orders.{Small, node_in, slot_below as slot_below_of};

use compiling::{Home, Place};
use drafts::draft::Draft;
use drafts::token::{Colouring, Token};
use layout::blocks::Layout;
use lists::Few;
use page::Page;
use rows::Row;
use sets::NodeSet;
use temporary::{Temporaries, Temporary};

// The spill order of a round that spilled: the next free slots for its nodes, in rising order.
pub fn spill(draft: &Draft, end: &Colouring) -> Token
    ensures { (o : Outcome) → Shows (length draft.now.classes) end.now o → Small (working_of draft.now) o → ticket_of result (working_of draft.now) ≡ ticket (working_of draft.now) o }
{
    let round = Round { draft, end };
    Token {
        out: round.variables_in(&end.spilled),
        hoped: round.variables_in(&end.hoped),
        slots: round.slots(),
        given: round.slot_below(draft.classes.len()),
    }
}

// A draft and the end of its round.
#[derive(Clone, Copy)]
struct Round<'a> {
    draft: &'a Draft,
    end: &'a Colouring,
}

impl<'a> Round<'a> {
    fn node_of(&self, v: usize) -> usize
        ensures { result ≡ node_in self.now.draft.now self.now.end.now v }
    {
        self.end.node_of(self.draft.classes.len(), v)
    }

    // The source variables whose nodes are in a set.
    fn variables_in(&self, nodes: &NodeSet) -> NodeSet
        ensures { members result ≡ those (λ v. has (members nodes.now) (node_in self.now.draft.now self.now.end.now v)) self.now.draft.now.source.vars }
    {
        let mut set = NodeSet::EMPTY;
        for v in 0..self.draft.source.vars {
            if nodes.contains(self.node_of(v)) {
                set = set.with(v);
            }
        }
        set
    }

    // The slot of each source variable, if its node is spilled.
    fn slots(&self) -> [u8; 64]
        ensures { take self.now.draft.now.source.vars result ≡ map (λ v. slot_below_of self.now.draft.now self.now.end.now (node_in self.now.draft.now self.now.end.now v)) (range self.now.draft.now.source.vars 0) }
    {
        // Filled by number, since a proof knows nothing of elements that a walk over a part of an array wrote.
        let mut slots = [0; 64];
        for v in 0..self.draft.source.vars {
            slots[v] = self.slot_below(self.node_of(v));
        }
        slots
    }

    // The next slot behind those given and those of the spilled nodes below n.
    fn slot_below(&self, n: usize) -> u8
        ensures { result ≡ slot_below_of self.now.draft.now self.now.end.now n }
    {
        let below = self.end.spilled.meet(NodeSet::up_to(n)).len();
        (self.draft.slots as u32 + below).min(255) as u8
    }
}

// The draft after a round that spilled.
pub fn rewrite(draft: &Draft, token: &Token) -> Draft
    ensures { Room (rewritten_by (ticket_of token.now (working_of draft.now)) (working_of draft.now)) → working_of result ≡ rewritten_by (ticket_of token.now (working_of draft.now)) (working_of draft.now) }
{
    let rewriting = Rewriting { draft, token };
    let page = rewriting.write_blocks();
    let mut next = *draft;
    next.rows = page.layout.moved();
    next.classes = page.classes;
    // As many registers as classes, though none counts before a round colours.
    next.registers = Few::of(&[0; 448][..page.classes.len()]);
    next.rounds = draft.rounds.saturating_add(1);
    next.slots = token.given;
    next.places = rewriting.places(next.rounds);
    next
}

// A draft and the spill order that its rewriting carries out.
#[derive(Clone, Copy)]
struct Rewriting<'a> {
    draft: &'a Draft,
    token: &'a Token,
}

impl<'a> Rewriting<'a> {
    // The places of the source's variables, those that go out in their slots.
    fn places(&self, round: u8) -> Few<Place, 64>
        ensures places { result ≡ map (place_spilled self.now.draft.now self.now.token.now round) (range self.now.draft.now.source.vars 0) }
        ensures size { length result ≡ self.now.draft.now.source.vars }
    {
        let mut places = Few::new();
        for v in 0..self.draft.source.vars {
            places.push(self.place_of(round, v));
        }
        places
    }

    fn place_of(&self, round: u8, v: usize) -> Place
        requires { v < self.now.draft.now.source.vars }
        ensures { result ≡ place_spilled self.now.draft.now self.now.token.now round v }
    {
        if !self.token.out.contains(v) {
            return self.draft.place_of(v);
        }
        Place {
            home: Home::Slot(self.token.slots[v]),
            round,
            hoped: self.token.hoped.contains(v),
        }
    }

    // The blocks of all rows.
    fn write_blocks(&self) -> Page
        ensures lines { Holds result.layout.rows result.layout.starts (blocks (order_in self.now.draft.now self.now.token.now) (class_in self.now.draft.now) (length (working_of self.now.draft.now).classes) (working_of self.now.draft.now).rows) }
        ensures classes { result.classes ≡ take 448 ((working_of self.now.draft.now).classes ++ map (class_in self.now.draft.now) (all_replaced (order_in self.now.draft.now self.now.token.now) (working_of self.now.draft.now).rows)) }
    {
        let mut page = self.first_page();
        for row in self.draft.rows() {
            self.write_block(&mut page, *row);
        }
        page
    }

    // A page without rows, and with the classes of the draft.
    fn first_page(&self) -> Page
        ensures lines { result.layout.rows ≡ [] }
        ensures starts { result.layout.starts ≡ [] }
        ensures classes { result.classes ≡ (working_of self.now.draft.now).classes }
        ensures next { result.next ≡ length (working_of self.now.draft.now).classes }
    {
        Page {
            layout: Layout::new(),
            next: self.draft.classes.len() as u16,
            classes: self.draft.classes,
        }
    }

    // The block of a row: nothing for a copy inside one slot.
    fn write_block(&self, page: &mut Page, row: Row)
        requires { page.old.next < 3000 }
        ensures lines { page.new.layout.rows ≡ take 512 (page.old.layout.rows ++ block (order_in self.now.draft.now self.now.token.now) (class_in self.now.draft.now) page.old.next row) }
        ensures starts { page.new.layout.starts ≡ take 512 (page.old.layout.starts ++ length page.old.layout.rows ∷ []) }
        ensures classes { page.new.classes ≡ take 448 (page.old.classes ++ map (class_in self.now.draft.now) (replaced (order_in self.now.draft.now self.now.token.now) row)) }
        ensures next { page.new.next ≡ page.old.next + length (replaced (order_in self.now.draft.now self.now.token.now) row) }
    {
        page.layout.open();
        if !self.is_inner(row) {
            let temporaries = self.temporaries(page, row);
            write_row(&mut page.layout, row, temporaries);
        }
    }

    // New temporaries for what goes out, in the order a, b, d.
    fn temporaries(&self, page: &mut Page, row: Row) -> Temporaries
        requires { page.old.next < 3000 }
        ensures value { result ≡ temporaries_of (order_in self.now.draft.now self.now.token.now) (class_in self.now.draft.now) page.old.next row }
        ensures notes { Notes page.old page.new (all_noted result) }
    {
        Temporaries {
            a: self.temporary(page, row.first_read()),
            b: self.temporary(page, row.second_read()),
            d: self.temporary(page, row.written()),
        }
    }

    // The next temporary for the variable that a field names, if it goes out. Its class is noted if there is room.
    fn temporary(&self, page: &mut Page, v: Option<u16>) -> Option<Temporary>
        requires { page.old.next < 4000 }
        ensures value { result ≡ temporary (order_in self.now.draft.now self.now.token.now) (class_in self.now.draft.now) v page.old.next }
        ensures notes { Notes page.old page.new (noted result) }
    {
        let v = v?;
        if !self.goes_out(v) {
            return None;
        }
        let number = page.next;
        let class = self.draft.class_of(v as usize);
        page.next += 1;
        page.classes.push(class);
        Some(Temporary {
            number,
            class,
            slot: self.slot_of(v),
        })
    }

    // Whether a row only copies inside one slot.
    fn is_inner(&self, row: Row) -> bool
        ensures { result ≡ inner (order_in self.now.draft.now self.now.token.now) row }
    {
        row.op.copies() && self.share_slot(row.d, row.a)
    }

    // Whether two variables go out to one slot.
    fn share_slot(&self, d: u16, a: u16) -> bool
        ensures { result ≡ shares (order_in self.now.draft.now self.now.token.now) d a }
    {
        self.goes_out(d) && self.goes_out(a) && self.slot_of(d) == self.slot_of(a)
    }

    fn goes_out(&self, v: u16) -> bool
        ensures { result ≡ has (members self.now.token.now.out) v }
    {
        self.token.out.contains(v as usize)
    }

    fn slot_of(&self, v: u16) -> u8
        ensures { result ≡ slot_in (order_in self.now.draft.now self.now.token.now) v }
    {
        self.token.slots[..self.draft.source.vars]
            .get(v as usize)
            .copied()
            .unwrap_or(0)
    }
}

// Loads of a and b, the row itself, a store of d.
fn write_row(layout: &mut Layout, row: Row, temporaries: Temporaries)
    ensures rows { layout.new.rows ≡ take 512 (layout.old.rows ++ rows_with temporaries row) }
    ensures starts { layout.new.starts ≡ layout.old.starts }
{
    load(layout, temporaries.a, row.weight);
    load(layout, temporaries.b, row.weight);
    layout.push(renamed_row(row, temporaries));
    store(layout, temporaries.d, row.weight);
}

fn load(layout: &mut Layout, t: Option<Temporary>, weight: u8)
    ensures rows { layout.new.rows ≡ take 512 (layout.old.rows ++ loaded weight t) }
    ensures starts { layout.new.starts ≡ layout.old.starts }
{
    if let Some(t) = t {
        layout.push(t.load(weight));
    }
}

fn store(layout: &mut Layout, t: Option<Temporary>, weight: u8)
    ensures rows { layout.new.rows ≡ take 512 (layout.old.rows ++ stored weight t) }
    ensures starts { layout.new.starts ≡ layout.old.starts }
{
    if let Some(t) = t {
        layout.push(t.store(weight));
    }
}

// The row with temporaries in the place of variables that go out.
fn renamed_row(row: Row, temporaries: Temporaries) -> Row
    ensures { result ≡ renamed temporaries row }
{
    Row {
        d: temporaries.d.map_or(row.d, |t| t.number),
        a: temporaries.a.map_or(row.a, |t| t.number),
        b: temporaries.b.map_or(row.b, |t| t.number),
        ..row
    }
}
