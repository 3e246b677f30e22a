//! The first and the last of several uses, and whether they end in time.
ghost use Rattle.std.specs.Prelude.{◌≤◌, ◌↔◌, [], ◌∷◌, ◌++◌, All, IsNone, IfSome};
ghost use Rattle.fil_share.specs.Sharing.{IsHeld, EndsWithin, KeepsApart, EndsInPairs, StartsFirst, StartsLast, BreaksInTime};

use crate::hold::{Hold, Meet};
use hw_limits::MOST_ROWS;

/// The use that starts first.
fn first_of(earlier: &[Hold], use_now: &Hold) -> Hold
    ensures { StartsFirst (earlier.now ++ use_now.now ∷ []) result }
{
    let mut first = *use_now;
    for hold in earlier {
        if hold.from < first.from {
            first = *hold;
        }
    }
    first
}

/// The use that starts last.
fn last_of(earlier: &[Hold], use_now: &Hold) -> Hold
    ensures { StartsLast (earlier.now ++ use_now.now ∷ []) result }
{
    let mut last = *use_now;
    for hold in earlier {
        if last.from < hold.from {
            last = *hold;
        }
    }
    last
}

/// What breaks F12 at a use that overlaps none of those before it. A use alone breaks nothing, however long it is.
pub(crate) fn overrun(earlier: &[Hold], use_now: &Hold, delay: u64) -> Option<Meet>
    requires held { All IsHeld (earlier.now ++ use_now.now ∷ []) }
    requires small { All (EndsWithin MOST_ROWS) (earlier.now ++ use_now.now ∷ []) }
    requires delay { delay ≤ MOST_ROWS }
    requires apart { KeepsApart (earlier.now ++ use_now.now ∷ []) }
    ensures none { IsNone result ↔ EndsInPairs delay (earlier.now ++ use_now.now ∷ []) }
    ensures late { IfSome result (BreaksInTime delay earlier.now use_now.now) }
{
    if earlier.is_empty() {
        return None;
    }
    let first = first_of(earlier, use_now);
    let last = last_of(earlier, use_now);
    if last.to <= first.from + delay {
        return None;
    }
    let gap = delay.max(last.from - first.from);
    let cycle = gap + first.from;
    Some(Meet { gap, cycle })
}
