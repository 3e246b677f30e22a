//! How reading ends without a tree.
use crate::terminal::Terminal;
use std::alloc::{AllocError, AllocFailed};

/// Why terminals are not read.
#[derive(Clone, Copy, Debug)]
pub enum ReadEnd<'a> {
    /// There was no memory.
    Memory,
    /// The terminals from the refused one on; none where something is missing at their end.
    Refused(&'a [Terminal]),
}

impl From<AllocError> for ReadEnd<'_> {
    ghost use Rattle.std.specs.Prelude.{◌≡◌};
    ghost use Rattle.hw_grammar.specs.declared.end.ReadEnd.TheVariants as ReadEnd;

    ghost from_gives = { λ _ end. end ≡ ReadEnd.Memory };

    fn from(_error: AllocError) -> Self {
        ReadEnd::Memory
    }
}

impl<T: Drop> From<AllocFailed<T>> for ReadEnd<'_> {
    ghost use Rattle.std.specs.Prelude.{◌≡◌};
    ghost use Rattle.hw_grammar.specs.declared.end.ReadEnd.TheVariants as ReadEnd;

    ghost from_gives = { λ _ end. end ≡ ReadEnd.Memory };

    fn from(_failed: AllocFailed<T>) -> Self {
        ReadEnd::Memory
    }
}
