//! Guards as tests that lead on.
ghost use Rattle.std.specs.Prelude.{◌≡◌};
ghost use Rattle.net_core.specs.Guard.{compare_values};

use crate::plan::Source;
use net_core::Cmp;

/// The end where a guard is false.
pub const FALSE: u32 = 0;
/// The end where a guard is true.
pub const TRUE: u32 = 1;
/// The number of the first test, after the ends.
pub const FIRST: u32 = 2;

/// A comparison of two sources, and where to go on: the numbers of earlier tests, or ends.
#[derive(Clone, Copy, Debug)]
pub struct Test {
    pub op: Cmp,
    pub left: Source,
    pub right: Source,
    pub yes: u32,
    pub no: u32,
}

/// The tests of all guards, and for each assignment where its guard begins: at a test, or at an end.
#[derive(Drop)]
pub struct FlatGuards {
    pub tests: Vec<Test>,
    pub starts: Vec<u32>,
}

/// Whether two numbers compare so.
pub fn compare(op: Cmp, left: u128, right: u128) -> bool
    ensures { result ≡ compare_values op left right }
{
    match op {
        Cmp::Eq => left == right,
        Cmp::Neq => left != right,
        Cmp::Lt => left < right,
        Cmp::Gt => left > right,
        Cmp::Le => left <= right,
        Cmp::Ge => left >= right,
    }
}
