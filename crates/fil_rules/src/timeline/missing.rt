//! Where a value is missing: the least offset of a need at which it is not available.
ghost use Rattle.std.specs.Prelude.{◌<◌, MatchOption};
ghost use Rattle.fil_rules.specs.inside.Available.{IsFirstMissing, IsFirstOutside, IsAvailableFrom, IsThroughout};

use fil_place::Interval;

/// When a value is available.
#[derive(Clone, Copy, Debug, PartialEq, Eq)]
pub enum Available {
    /// At every offset of every event, as a literal is.
    Always,
    /// In this interval.
    Within(Interval),
    /// At no offset.
    Never,
}

/// The least offset from the need's start on that is outside the interval.
fn first_outside(need: Interval, interval: Interval) -> u128
    ensures { IsFirstOutside interval need.event need.from result }
{
    if interval.event == need.event && interval.from <= need.from && need.from < interval.to {
        interval.to
    } else {
        need.from
    }
}

/// The least offset from the need's start on at which the value is not available.
fn first_missing(need: Interval, available: Available) -> Option<u128>
    ensures { MatchOption result (IsAvailableFrom available need) (IsFirstMissing available need) }
{
    match available {
        Available::Always => None,
        Available::Within(interval) => Some(first_outside(need, interval)),
        Available::Never => Some(need.from),
    }
}

/// The least offset of the need at which the value is not available.
pub fn missing(need: Interval, available: Available) -> Option<u128>
    ensures cases { MatchOption result (IsThroughout available need) (IsFirstMissing available need) }
    ensures inside { MatchOption result (IsThroughout available need) (λ offset. offset < need.to) }
{
    let first = first_missing(need, available)?;
    if first < need.to { Some(first) } else { None }
}
