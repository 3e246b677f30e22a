//! The rule F11: two invocations trigger an event of their instance on one event of the component, in rows apart.
ghost use Rattle.std.specs.Prelude.{◌≡◌, ◌↔◌, ◌+◌, ℕ, ◌<◌, List, All, IfSome, IsTrue, MatchOption, length};
ghost use Rattle.hw_names.specs.Name.{Text, AreDistinct};
ghost use Rattle.fil_ast.specs.Evidence.{IsMeetingCycle};
ghost use Rattle.fil_ast.specs.Scope.{Scope, Invocation};
ghost use Rattle.fil_ast.specs.Sharing.{KeepsUsesApart};
ghost use Rattle.fil_ast.specs.Signature.{Signature};
ghost use Rattle.fil_ast.specs.Tree.{TimeAt};
ghost use Rattle.fil_ast.specs.declared.tree.FilComp.{FilComp};
ghost use Rattle.fil_sig.specs.Seen.{seen, seen_delay};
ghost use Rattle.fil_rules.specs.inside.Shared.{IsInvoked};
ghost use Rattle.fil_rules.specs.inside.Sharing.{AreApartAt, AreNumbersApart, GivesTimes, IsFoundFirst, KeepsApartAt, MeetAt};
ghost use Rattle.fil_place.specs.Uses.{HasDelay};
ghost use Rattle.fil_rules.specs.inside.Sharing.{HasRoom};
ghost use Rattle.fil_place.specs.Starts.{ListsUses};
ghost use Rattle.fil_place.specs.Tables.{calls_at};
ghost use Rattle.fil_place.specs.Times.{AreTimes};

use fil_place::{Offset, Starts, Tables, Use, use_of};
use fil_sig::{Delay, TimeSig};

/// The times that the invocation with this number gives.
fn times_given(tables: &Tables, call: usize) -> &[Offset]
    requires { call < length tables.now.times.items }
    ensures { GivesTimes tables.now call result.now }
{
    &tables.times[call]
}

/// The first row after the use.
pub fn end_of(held: Use) -> u128
    ensures { result ≡ held.at.plus + held.hold }
{
    held.at.plus as u128 + held.hold as u128
}

/// Whether two uses are on one event of the component, and one of them ends before or where the other starts.
fn are_apart(first: Use, second: Use) -> bool
    ensures { IsTrue result ↔ AreNumbersApart first second }
{
    first.at.event == second.at.event
        && (end_of(first) <= second.at.plus as u128 || end_of(second) <= first.at.plus as u128)
}

/// The later of the times at which two invocations trigger the callee's event with this number and delay, where
/// these two uses are not apart.
fn meeting_at(at: &[Offset], earlier: &[Offset], number: usize, delay: Delay) -> Option<u64>
    ensures { (events : List Text) (inst : Text) (times others : List TimeAt) (sig : Signature) → AreDistinct events
        → AreTimes events at.now times → AreTimes events earlier.now others → HasDelay sig number (seen_delay delay)
        → MatchOption result (AreApartAt sig inst times others number) (MeetAt sig inst times others number) }
{
    let own = use_of(at, number, delay)?;
    let other = use_of(earlier, number, delay)?;
    if are_apart(other, own) {
        return None;
    }
    Some(other.at.plus.max(own.at.plus) as u64)
}

/// The later of the times for the first event of the callee at which two invocations are not apart.
fn first_meeting(sig: &TimeSig, at: &[Offset], earlier: &[Offset]) -> Option<u64>
    ensures { (events : List Text) (inst : Text) (times others : List TimeAt) → AreDistinct events
        → AreTimes events at.now times → AreTimes events earlier.now others
        → MatchOption result ((k : ℕ) → AreApartAt (seen sig.now) inst times others k)
        (IsFoundFirst ℕ (AreApartAt (seen sig.now) inst times others) (MeetAt (seen sig.now) inst times others)) }
{
    for (number, event) in sig.events.iter().enumerate() {
        if let Some(cycle) = meeting_at(at, earlier, number, event.delay) {
            return Some(cycle);
        }
    }
    None
}

/// F11 of an invocation at these times, after the earlier ones of its instance with these numbers: the later of the
/// times for the first earlier invocation from which it is not apart.
fn told_cycle(tables: &Tables, calls: &[usize], sig: &TimeSig, at: &[Offset]) -> Option<u64>
    requires { All (λ (k : ℕ). k < length tables.now.times.items) calls.now }
    ensures { (names : List Text) (comp : FilComp) (with : Scope) (v : Invocation)
        → IsInvoked names comp tables.now calls.now (seen sig.now) at.now with v
        → MatchOption result (KeepsUsesApart with v) (IsMeetingCycle with v) }
{
    for call in calls {
        if let Some(cycle) = first_meeting(sig, at, times_given(tables, *call)) {
            return Some(cycle);
        }
    }
    None
}

/// Whether the use is apart from another one, if there is one.
fn is_apart_from(other: Option<Use>, own: Use) -> bool
    ensures { IsTrue result ↔ IfSome other (λ other. AreNumbersApart other own) }
{
    match other {
        Some(other) => are_apart(other, own),
        None => true,
    }
}

/// Whether a use of the event with this number of an instance is apart from the uses next to it.
fn has_room(starts: &Starts, instance: usize, number: usize, own: Use) -> bool
    ensures { IsTrue result → HasRoom starts.now instance number own }
{
    let before = starts.last_until(instance, number, own.at.plus);
    let after = starts.first_from(instance, number, own.at.plus);
    is_apart_from(before, own) && is_apart_from(after, own)
}

/// Whether an invocation at these times of the instance with this number keeps F11 at the callee's event with this
/// number and delay.
fn keeps_apart_at(
    tables: &Tables,
    instance: usize,
    at: &[Offset],
    number: usize,
    delay: Delay,
) -> bool
    ensures { (names : List Text) (comp : FilComp) (sig : Signature) (with : Scope) (v : Invocation)
        → IsInvoked names comp tables.now (calls_at tables.now instance) sig at.now with v → ListsUses tables.now instance with v.inst
        → HasDelay sig number (seen_delay delay)
        → IsTrue result → KeepsApartAt with v number }
{
    match use_of(at, number, delay) {
        Some(own) => has_room(&tables.starts, instance, number, own),
        None => true,
    }
}

/// Whether an invocation at these times of the instance with this number keeps F11.
fn keeps_apart(tables: &Tables, instance: usize, sig: &TimeSig, at: &[Offset]) -> bool
    ensures { (names : List Text) (comp : FilComp) (with : Scope) (v : Invocation)
        → IsInvoked names comp tables.now (calls_at tables.now instance) (seen sig.now) at.now with v → ListsUses tables.now instance with v.inst
        → IsTrue result → KeepsUsesApart with v }
{
    for (number, event) in sig.events.iter().enumerate() {
        if !keeps_apart_at(tables, instance, at, number, event.delay) {
            return false;
        }
    }
    true
}

/// Whether each number is below the end.
fn are_below(numbers: &[usize], end: usize) -> bool
    ensures { IsTrue result ↔ All (λ (k : ℕ). k < end) numbers.now }
{
    for number in numbers {
        if *number >= end {
            return false;
        }
    }
    true
}

/// The numbers of the invocations so far of the instance with this number.
fn calls_of(tables: &Tables, instance: usize) -> &[usize]
    ensures { result.now ≡ calls_at tables.now instance }
{
    match tables.calls.get(instance) {
        Some(calls) => calls,
        None => &[],
    }
}

/// The same, where each is tested, so that it finds its times.
fn tested_calls(tables: &Tables, instance: usize) -> &[usize]
    ensures calls { All (λ (k : ℕ). k < length tables.now.times.items) (calls_at tables.now instance) → result.now ≡ calls_at tables.now instance }
    ensures within { All (λ (k : ℕ). k < length tables.now.times.items) result.now }
{
    let calls = calls_of(tables, instance);
    if are_below(calls, tables.times.len()) {
        calls
    } else {
        &[]
    }
}

/// F11 of an invocation at these times of the instance with this number: where it is broken, the later of the times
/// for the first earlier invocation from which it is not apart. Only then are the earlier ones gone over.
pub fn meeting_cycle(tables: &Tables, instance: usize, sig: &TimeSig, at: &[Offset]) -> Option<u64>
    ensures { (names : List Text) (comp : FilComp) (with : Scope) (v : Invocation)
        → IsInvoked names comp tables.now (calls_at tables.now instance) (seen sig.now) at.now with v → ListsUses tables.now instance with v.inst
        → MatchOption result (KeepsUsesApart with v) (IsMeetingCycle with v) }
{
    if keeps_apart(tables, instance, sig, at) {
        return None;
    }
    told_cycle(tables, tested_calls(tables, instance), sig, at)
}
