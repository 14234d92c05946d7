ghost use Rattle.std.specs.Prelude.{◌≡◌, ◌+◌, ◌<◌, ◌≤◌, [], ◌∷◌, ◌++◌, length, take};

use rounds::Ends;

// The copies of a working program between variables of the source, in the order of its rows: the first `count` of
// `ends`. There is no heap, so the memory is fixed.
#[derive(Clone, Copy)]
pub struct Copies {
    pub ends: [Ends; 512],
    pub count: usize,
    ghost few: { count ≤ 512 },
    ghost whole: { length ends ≡ 512 },
}

impl Copies {
    pub fn none() -> Copies
        ensures { result.count ≡ 0 }
    {
        Copies {
            ends: [Ends { d: 0, a: 0 }; 512],
            count: 0,
        }
    }

    // One copy more, behind the others.
    pub fn push(&mut self, copy: Ends)
        requires { self.old.count < 512 }
        ensures { (self.new.count ≡ self.old.count + 1) × (take self.new.count self.new.ends ≡ take self.old.count self.old.ends ++ (copy ∷ [])) }
    {
        self.ends[self.count] = copy;
        self.count += 1;
    }

    pub fn as_slice(&self) -> &[Ends]
        ensures { result.now ≡ take self.now.count self.now.ends }
    {
        &self.ends[..self.count]
    }
}
