ghost use Rattle.std.specs.Prelude.{◌≡◌, true, false};
ghost use Rattle.compiling.specs.Rewrite.{rewritten_by};
ghost use Rattle.drafts.specs.Drafts.{ticket_of};
ghost use Rattle.histories.specs.Histories.{HasGrown, Playable};
ghost use Rattle.stages.specs.Stages.{working_in, coloured_in, compiled_in, Pending, Painted, Ended};

use crate::Record;
use drafts::token::Token;

// An admitted program, over the record that holds it.
#[derive(Drop)]
pub struct Admitted<'a> {
    pub(crate) record: &'a mut Record,
    ghost grown: { HasGrown (working_in «record».now) },
}

// A program after a round, with the flag that says how the round ended: it spilled, or it coloured.
pub struct Rounded<'a> {
    pub(crate) record: &'a mut Record,
    pub(crate) spilled: bool,
    pub(crate) token: Token,
    ghost ended: { ∥ Ended spilled token «record».now ∥₁ },
}

// A spill order: the program that is to be rewritten, and what is to go out of registers. It cannot be let go.
pub struct SpillOrder<'a> {
    pub(crate) record: &'a mut Record,
    pub(crate) token: Token,
    ghost pending: { ∥ Pending token (working_in «record».now) ∥₁ },
}

// A coloured program.
#[derive(Drop)]
pub struct Coloured<'a> {
    pub(crate) record: &'a mut Record,
    ghost painted: { ∥ Painted (coloured_in «record».now) ∥₁ },
}

// A compiled program.
#[derive(Drop)]
pub struct Compiled<'a> {
    pub(crate) record: &'a mut Record,
    ghost playable: { ∥ Playable (compiled_in «record».now) ∥₁ },
}

// A round that spilled cannot be let go: its order has to be rewritten.
impl Drop for Rounded<'_> {
    fn drop(self)
        requires { self.spilled ≡ false }
    {
        let Rounded {
            record: _,
            spilled: _,
            token: _,
        } = self;
    }
}

impl<'a> Rounded<'a> {
    // Whether the round spilled.
    pub fn spilled(&self) -> bool
        ensures { result ≡ self.now.spilled }
    {
        self.spilled
    }

    // The coloured program. It must be known that the round did not spill: there is none otherwise.
    pub fn coloured(self) -> Coloured<'a>
        requires { self.spilled ≡ false }
        ensures { result.record.now ≡ self.entry.record.now }
    {
        let Rounded {
            record,
            spilled: _,
            token: _,
        } = self;
        Coloured { record }
    }

    // The spill order. It must be known that the round spilled: there is none otherwise.
    pub fn order(self) -> SpillOrder<'a>
        requires { self.spilled ≡ true }
        ensures { (result.record.now ≡ self.entry.record.now) × (result.token ≡ self.entry.token) }
    {
        let Rounded {
            record,
            spilled: _,
            token,
        } = self;
        SpillOrder { record, token }
    }
}

impl<'a> SpillOrder<'a> {
    // Spends the order: the program is rewritten, and admitted again.
    pub(crate) fn spent(self) -> Admitted<'a>
        ensures { working_in result.record.now ≡ rewritten_by (ticket_of self.entry.token (working_in self.entry.record.now)) (working_in self.entry.record.now) }
    {
        let SpillOrder { record, token } = self;
        let draft = rewriting::rewrite(&record.draft, &token);
        *record = Record { draft };
        Admitted { record }
    }
}
