//! Whether the uses of a unit meet, and the evidence where they do.
ghost use Rattle.std.specs.Prelude.{◌≤◌, ◌↔◌, [], ◌∷◌, ◌++◌, All, IsNone, IfSome};
ghost use Rattle.fil_share.specs.Sharing.{IsHeld, EndsWithin, CanShare, BreaksRule, IsFirstMeet};

use crate::hold::{Hold, Meet, first_overlap};
use crate::span::overrun;
use hw_limits::MOST_ROWS;

/// What a use breaks of F11 and F12, after uses that keep both: the earlier ones, in their order, are of the same
/// event of the same unit by the same transaction, which starts at row 0. It takes no memory.
fn meets(earlier: &[Hold], use_now: &Hold, delay: u64) -> Option<Meet>
    requires held { All IsHeld (earlier.now ++ use_now.now ∷ []) }
    requires small { All (EndsWithin MOST_ROWS) (earlier.now ++ use_now.now ∷ []) }
    requires delay { delay ≤ MOST_ROWS }
    requires kept { CanShare delay earlier.now }
    ensures none { IsNone result ↔ CanShare delay (earlier.now ++ use_now.now ∷ []) }
    ensures met { IfSome result (BreaksRule delay earlier.now use_now.now) }
{
    match first_overlap(earlier, use_now) {
        Some(place) => {
            let cycle = earlier[place].from.max(use_now.from);
            Some(Meet { gap: 0, cycle })
        }
        None => overrun(earlier, use_now, delay),
    }
}

/// The first meet of the uses of one event of a unit by one transaction, which starts at row 0. None exactly where
/// F11 and F12 hold for them. It takes no memory, and stops after at most `delay + 1` uses: uses that keep both rules
/// are as many as the delay has rows, or fewer.
pub fn meeting(uses: &[Hold], delay: u64) -> Option<Meet>
    requires held { All IsHeld uses.now }
    requires small { All (EndsWithin MOST_ROWS) uses.now }
    requires delay { delay ≤ MOST_ROWS }
    ensures none { IsNone result ↔ CanShare delay uses.now }
    ensures met { IfSome result (IsFirstMeet delay uses.now) }
{
    for (number, use_now) in uses.iter().enumerate() {
        if let Some(meet) = meets(&uses[..number], use_now, delay) {
            return Some(meet);
        }
    }
    None
}
