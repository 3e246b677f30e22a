//! The rules F7 and F10: the rows for which an invocation holds its callee's events.
ghost use Rattle.std.specs.Prelude.{◌≡◌, ◌↔◌, List, IsTrue};
ghost use Rattle.hw_names.specs.Name.{Text, AreDistinct};
ghost use Rattle.fil_ast.specs.Naming.{event_names};
ghost use Rattle.fil_ast.specs.Scope.{Scope};
ghost use Rattle.fil_ast.specs.Timeline.{HoldsSome, KeepsDelays};
ghost use Rattle.fil_ast.specs.Tree.{TimeAt, ValueTree, component_tree};
ghost use Rattle.fil_sig.specs.Seen.{seen, seen_delay};
ghost use Rattle.fil_place.specs.Times.{AreTimes};
ghost use Rattle.fil_rules.specs.inside.Holds.{HoldsAt, KeepsDelayAt};

use fil_ast::FilComp;
use fil_place::{Offset, use_of};
use fil_sig::{Delay, TimeSig};

/// Whether the event is no register's first, or is held for some row.
fn holds_at(at: &[Offset], number: usize, delay: Delay) -> bool
    ensures { (events : List Text) (times : List TimeAt) → AreTimes events at.now times
        → IsTrue result ↔ HoldsAt (seen_delay delay) times number }
{
    if delay != Delay::Gap {
        return true;
    }
    match use_of(at, number, delay) {
        Some(held) => held.hold > 0,
        None => true,
    }
}

/// F7: the second time of a register comes after the row that follows the first.
pub fn holds_some(sig: &TimeSig, at: &[Offset]) -> bool
    ensures { (events : List Text) (times : List TimeAt) → AreTimes events at.now times
        → IsTrue result ↔ HoldsSome (seen sig.now) times }
{
    for (number, event) in sig.events.iter().enumerate() {
        if !holds_at(at, number, event.delay) {
            return false;
        }
    }
    true
}

/// Whether the event is held no longer than the delay of the component's event that its time names.
fn keeps_delay(comp: &FilComp, at: &[Offset], number: usize, delay: Delay) -> bool
    ensures { (names events : List Text) (times : List TimeAt) → events ≡ event_names (component_tree names comp.now)
        → AreDistinct events → AreTimes events at.now times
        → IsTrue result ↔ KeepsDelayAt (component_tree names comp.now) (seen_delay delay) times number }
{
    let Some(held) = use_of(at, number, delay) else {
        return true;
    };
    match comp.events.get(held.at.event) {
        Some(event) => held.hold as u128 <= event.delay,
        None => true,
    }
}

/// F10: each event of the callee has at most the delay of the event that its time names.
pub fn keeps_delays(comp: &FilComp, sig: &TimeSig, at: &[Offset]) -> bool
    ensures { (names events : List Text) (times : List TimeAt) (scope : Scope) (inst : Text) (args : List ValueTree)
        → scope.comp ≡ component_tree names comp.now → events ≡ event_names scope.comp
        → AreDistinct events → AreTimes events at.now times
        → IsTrue result ↔ KeepsDelays scope (seen sig.now) inst (record { times = times; args = args }) }
{
    for (number, event) in sig.events.iter().enumerate() {
        if !keeps_delay(comp, at, number, event.delay) {
            return false;
        }
    }
    true
}
