ghost use Rattle.std.specs.Prelude.{◌≡◌, ◌+◌, ◌<◌, ◌≤◌, [], ◌∷◌, ◌++◌, length, take};

use rounds::Removed;

// The order in which nodes are removed: the first `count` of `order`. There is no heap, so the memory is fixed.
#[derive(Clone, Copy)]
pub struct Removals {
    pub order: [Removed; 448],
    pub count: usize,
    ghost few: { count ≤ 448 },
    ghost whole: { length order ≡ 448 },
}

impl Removals {
    pub(crate) fn none() -> Removals
        ensures { result.count ≡ 0 }
    {
        let nobody = Removed {
            node: 0,
            hoped: false,
        };
        Removals {
            order: [nobody; 448],
            count: 0,
        }
    }

    // One removal more, behind the others.
    pub(crate) fn push(&mut self, removed: Removed)
        requires { self.old.count < 448 }
        ensures { (self.new.count ≡ self.old.count + 1) × (take self.new.count self.new.order ≡ take self.old.count self.old.order ++ (removed ∷ [])) }
    {
        self.order[self.count] = removed;
        self.count += 1;
    }

    pub fn as_slice(&self) -> &[Removed]
        ensures { result.now ≡ take self.now.count self.now.order }
    {
        &self.order[..self.count]
    }
}
