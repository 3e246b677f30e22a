//! Why a line is not read.
ghost use Rattle.std.specs.Prelude.{◌≡◌};
ghost use Rattle.net_text.specs.declared.line_end.LineEnd.TheVariants as ends;

use std::alloc::{AllocError, AllocFailed};

/// The line has another form, or there was no memory.
#[derive(Clone, Copy, Debug, PartialEq, Eq)]
pub enum LineEnd {
    Grammar,
    Memory,
}

impl From<hw_bits::Memory> for LineEnd {
    ghost from_gives = { λ _ e. e ≡ ends.Memory };

    fn from(_error: hw_bits::Memory) -> LineEnd {
        LineEnd::Memory
    }
}

impl From<AllocError> for LineEnd {
    ghost from_gives = { λ _ e. e ≡ ends.Memory };

    fn from(_error: AllocError) -> LineEnd {
        LineEnd::Memory
    }
}

impl<T: Drop> From<AllocFailed<T>> for LineEnd {
    ghost from_gives = { λ _ e. e ≡ ends.Memory };

    fn from(_failed: AllocFailed<T>) -> LineEnd {
        LineEnd::Memory
    }
}
