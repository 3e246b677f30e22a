//! Why a stimulus of runs side by side gives none.
ghost use Rattle.std.specs.Prelude.{◌≡◌};
ghost use Rattle.stim_read.specs.RunsRules.{end_in_run};

use crate::stim_end::StimEnd;
use hw_bits::Memory;
use std::alloc::{AllocError, AllocFailed};

/// Why a stimulus of runs side by side gives none.
#[derive(Clone, Copy, Debug, PartialEq, Eq)]
pub enum RunsEnd {
    /// The rule S1 to S7 with this number is the first that is broken, in this entry of this run; both are counted from 0. For S5
    /// it tells the two starts and the delay between them; else these are 0, and so are the run and the entry of S1 and S2.
    Refused {
        rule: u8,
        run: u64,
        entry: u64,
        first: u64,
        second: u64,
        delay: u64,
    },
    /// All runs together have more entries, or more rows where `cycles` says so, than this limit; the count is at most `2^64 - 1`.
    Limit {
        count: u64,
        limit: u64,
        cycles: bool,
    },
    /// There was no memory.
    Memory,
}

impl From<Memory> for RunsEnd {
    ghost use Rattle.stim_read.specs.declared.runs_end.RunsEnd.{RunsEnd};

    ghost from_gives = { λ memory end. end ≡ RunsEnd.Memory };

    fn from(_memory: Memory) -> RunsEnd {
        RunsEnd::Memory
    }
}

impl From<AllocError> for RunsEnd {
    ghost use Rattle.stim_read.specs.declared.runs_end.RunsEnd.{RunsEnd};

    ghost from_gives = { λ error end. end ≡ RunsEnd.Memory };

    fn from(_error: AllocError) -> RunsEnd {
        RunsEnd::Memory
    }
}

impl<T: Drop> From<AllocFailed<T>> for RunsEnd {
    ghost use Rattle.stim_read.specs.declared.runs_end.RunsEnd.{RunsEnd};

    ghost from_gives = { λ failed end. end ≡ RunsEnd.Memory };

    fn from(_failed: AllocFailed<T>) -> RunsEnd {
        RunsEnd::Memory
    }
}

/// What ends the run with this number.
pub(crate) fn end_in_run(run: u64, end: StimEnd) -> RunsEnd
    ensures { result ≡ end_in_run run end }
{
    match end {
        StimEnd::Refused {
            rule,
            entry,
            first,
            second,
            delay,
        } => RunsEnd::Refused {
            rule,
            run,
            entry,
            first,
            second,
            delay,
        },
        StimEnd::Limit {
            count,
            limit,
            cycles,
        } => RunsEnd::Limit {
            count,
            limit,
            cycles,
        },
        StimEnd::Memory => RunsEnd::Memory,
    }
}
