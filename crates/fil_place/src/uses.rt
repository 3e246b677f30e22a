//! The uses of a callee's events: when an invocation triggers an event, and for how many rows it is held.
ghost use Rattle.std.specs.Prelude.{◌≡◌, ◌≤◌, List, Option, IfSome, option_map};
ghost use Rattle.hw_names.specs.Name.{Text};
ghost use Rattle.fil_ast.specs.Timeline.{hold_of};
ghost use Rattle.fil_ast.specs.Tree.{TimeAt};
ghost use Rattle.fil_sig.specs.Seen.{seen_delay};
ghost use Rattle.fil_place.specs.Callees.{IsGoodDelay};
ghost use Rattle.fil_place.specs.Uses.{MOST_HOLD, ShowsUse, next_plus, plus_of};
ghost use Rattle.fil_place.specs.Times.{AreTimes};

use crate::times::Offset;
use fil_sig::Delay;

/// An event of a callee that an invocation triggers, at this time, for so many rows.
#[derive(Clone, Copy, Debug, PartialEq, Eq)]
pub struct Use {
    pub at: Offset,
    pub hold: u64,
}

/// For how many rows an event of this delay is held from this time on, where the callee's next event is at `next`.
fn hold_of(delay: Delay, start: Offset, next: Option<&Offset>) -> Option<u64>
    ensures shown { (s : TimeAt) (t : Option TimeAt) → s.plus ≡ start.plus → option_map plus_of t ≡ option_map next_plus next.entry
        → result ≡ hold_of (seen_delay delay) s t }
    ensures small { IsGoodDelay (seen_delay delay) → IfSome result (λ rows. rows ≤ MOST_HOLD) }
{
    match delay {
        Delay::Fixed(rows) => Some(rows),
        Delay::Gap => {
            let next = next?;
            Some(next.plus.saturating_sub(start.plus).saturating_sub(1) as u64)
        }
        Delay::End => None,
    }
}

/// The use of the callee's event with this number and delay, where the callee's events are at these times.
pub fn use_of(at: &[Offset], number: usize, delay: Delay) -> Option<Use>
    ensures shown { (events : List Text) (times : List TimeAt) → AreTimes events at.now times
        → ShowsUse events (seen_delay delay) times number result }
    ensures small { IsGoodDelay (seen_delay delay) → IfSome result (λ held. held.hold ≤ MOST_HOLD) }
{
    let start = *at.get(number)?;
    let hold = hold_of(delay, start, at.get(number + 1))?;
    Some(Use { at: start, hold })
}
