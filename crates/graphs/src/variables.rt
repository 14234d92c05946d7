ghost use Rattle.std.specs.Prelude.{◌≡◌, ◌≤◌, length};
ghost use Rattle.graphs.specs.Facts.{Masked};

use sets::NodeSet;

// The variables of a working program: the first `source` of them are those of the source, the rest temporaries.
// Beside the classes stands the set of the variables of each class. There is no heap, so the memory is fixed.
#[derive(Clone, Copy)]
pub struct Variables {
    pub source: usize,
    pub count: usize,
    pub classes: [u8; 448],
    pub masks: [NodeSet; 3],
    ghost few: { (source ≤ 64) × (count ≤ 448) },
    ghost whole: { (length classes ≡ 448) × (length masks ≡ 3) },
    ghost masked: { Masked count classes masks },
}
