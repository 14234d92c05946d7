ghost use Rattle.std.specs.Prelude.{◌≤◌};

// How many variables and rows a file has, both in range.
#[derive(Clone, Copy)]
pub struct Header {
    pub vars: usize,
    pub count: usize,
    ghost few: { vars ≤ 64 },
    ghost some: { 1 ≤ count },
    ghost most: { count ≤ 128 },
}
