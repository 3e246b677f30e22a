//! Why a stimulus gives no run.
ghost use Rattle.std.specs.Prelude.{◌≡◌};
ghost use Rattle.stim_read.specs.Rules.{refused};

use hw_bits::Memory;
use std::alloc::{AllocError, AllocFailed};

/// Why a stimulus gives no run.
#[derive(Clone, Copy, Debug, PartialEq, Eq)]
pub enum StimEnd {
    /// The rule S1 to S7 with this number is the first that is broken, in this entry, counted from 0. For S5
    /// it tells the two starts and the delay between them; else these are 0, and so is the entry of S1 and S2.
    Refused {
        rule: u8,
        entry: u64,
        first: u64,
        second: u64,
        delay: u64,
    },
    /// There are more entries, or more rows where `cycles` says so, than this limit.
    Limit {
        count: u64,
        limit: u64,
        cycles: bool,
    },
    /// There was no memory.
    Memory,
}

impl From<Memory> for StimEnd {
    ghost use Rattle.stim_read.specs.declared.stim_end.StimEnd.{StimEnd};

    ghost from_gives = { λ memory end. end ≡ StimEnd.Memory };

    fn from(_memory: Memory) -> StimEnd {
        StimEnd::Memory
    }
}

impl From<AllocError> for StimEnd {
    ghost use Rattle.stim_read.specs.declared.stim_end.StimEnd.{StimEnd};

    ghost from_gives = { λ error end. end ≡ StimEnd.Memory };

    fn from(_error: AllocError) -> StimEnd {
        StimEnd::Memory
    }
}

impl<T: Drop> From<AllocFailed<T>> for StimEnd {
    ghost use Rattle.stim_read.specs.declared.stim_end.StimEnd.{StimEnd};

    ghost from_gives = { λ failed end. end ≡ StimEnd.Memory };

    fn from(_failed: AllocFailed<T>) -> StimEnd {
        StimEnd::Memory
    }
}

/// This rule is broken in this entry.
pub(crate) fn refused(rule: u8, entry: u64) -> StimEnd
    ensures { result ≡ refused rule entry }
{
    StimEnd::Refused {
        rule,
        entry,
        first: 0,
        second: 0,
        delay: 0,
    }
}
