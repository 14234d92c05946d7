#![tactic(auto)]

ghost use Rattle.paths.specs.Paths.{AdmissionByPaths, UnreachedByPaths, UnwrittenByPaths};

// Admission by paths, stated by the contract alone: a file is admitted exactly if it can be read,
// every row lies on a path from row 0, and on every path to a row all that it reads was written.
pub fn admission_by_paths()
    ensures { AdmissionByPaths }
{}

// Refusal 13 by paths: it names the lowest row to which no path leads.
pub fn unreached_by_paths()
    ensures { UnreachedByPaths }
{}

// Refusal 14 by paths: each row has a path, and it names the lowest row
// to which one leads that has not written what the row reads.
pub fn unwritten_by_paths()
    ensures { UnwrittenByPaths }
{}
