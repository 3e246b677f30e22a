//! The rule F12: one transaction's uses of an event of an instance end within the delay.
ghost use Rattle.std.specs.Prelude.{◌≡◌, ◌≤◌, List, IfNone, IfSome, MatchOption};
ghost use Rattle.hw_names.specs.Name.{Text};
ghost use Rattle.fil_ast.specs.Evidence.{IsGap, UsesEvent};
ghost use Rattle.fil_ast.specs.Scope.{Scope, Invocation};
ghost use Rattle.fil_ast.specs.Sharing.{EndsInTime, IsUseOf, KeepsUsesApart};
ghost use Rattle.fil_ast.specs.Signature.{Signature};
ghost use Rattle.fil_ast.specs.Timeline as timeline;
ghost use Rattle.fil_ast.specs.declared.tree.FilComp.{FilComp};
ghost use Rattle.fil_sig.specs.Seen.{seen, seen_delay};
ghost use Rattle.fil_place.specs.Callees.{HasGoodTimes, IsGoodDelay};
ghost use Rattle.fil_rules.specs.inside.Shared.{IsInvokedIn, IsInvoked};
ghost use Rattle.fil_rules.specs.inside.Sharing.{EndsAt, GapAt, IsFirstOf, IsLastOf, IsSpanOf, SpanFits, SpanMeets};
ghost use Rattle.fil_place.specs.Uses.{HasDelay, IsShownBy, MOST_HOLD};
ghost use Rattle.fil_place.specs.Starts.{ListsUses};
ghost use Rattle.fil_place.specs.Tables.{calls_at};
ghost use Rattle.fil_place.specs.declared.uses.Use.{Use};

use crate::sharing::apart::end_of;
use fil_place::{Offset, Place, Tables, Use, use_of};
use fil_share::Meet;
use fil_sig::{Delay, TimeSig};

/// Of one transaction's uses of an event of an instance, the one that starts first and the one that starts last.
#[derive(Clone, Copy, Debug, PartialEq, Eq)]
pub struct Span {
    pub first: Use,
    pub last: Use,
}

/// Of two uses the one that starts first.
fn first_of(one: Use, other: Use) -> Use
    ensures { IsFirstOf one other result }
{
    if other.at.plus < one.at.plus {
        other
    } else {
        one
    }
}

/// Of two uses the one that starts last.
fn last_of(one: Use, other: Use) -> Use
    ensures { IsLastOf one other result }
{
    if one.at.plus < other.at.plus {
        other
    } else {
        one
    }
}

/// The span with one more use, if there is one.
fn widened(span: Span, other: Option<Use>) -> Span
    ensures same { IfNone other (result ≡ span) }
    ensures first { IfSome other (λ u. IsFirstOf span.first u result.first) }
    ensures last { IfSome other (λ u. IsLastOf span.last u result.last) }
{
    match other {
        Some(other) => Span {
            first: first_of(span.first, other),
            last: last_of(span.last, other),
        },
        None => span,
    }
}

/// The span of a use of the event with this number of the instance with this number, and of the uses of it so far.
fn span_of(tables: &Tables, instance: usize, own: Use, number: usize) -> Span
    requires small { own.hold ≤ MOST_HOLD }
    ensures spans { (names : List Text) (comp : FilComp) (sig : Signature) (at : List Offset) (with : Scope) (v : Invocation) (u : timeline.Use)
        → IsInvoked names comp tables.now (calls_at tables.now instance) sig at with v → ListsUses tables.now instance with v.inst
        → IsUseOf with v u → u.event ≡ number → IsShownBy tables.now.events own u
        → IsSpanOf tables.now.events (UsesEvent with v number) result }
    ensures order { result.first.at.plus ≤ result.last.at.plus }
    ensures small { result.last.hold ≤ MOST_HOLD }
{
    let span = Span {
        first: own,
        last: own,
    };
    let earliest = tables.starts.first_from(instance, number, 0);
    let latest = tables.starts.last_until(instance, number, u16::MAX);
    let longer = widened(span, earliest);
    widened(longer, latest)
}

/// How far apart two transactions start that both hold the instance, and where, if a transaction's uses end later
/// than the delay after the first start.
fn overrun(span: Span, delay: u128) -> Option<Meet>
    requires order { span.first.at.plus ≤ span.last.at.plus }
    requires small { span.last.hold ≤ MOST_HOLD }
    ensures { MatchOption result (SpanFits span delay) (SpanMeets span delay) }
{
    if end_of(span.last) - span.first.at.plus as u128 <= delay {
        return None;
    }
    let distance = span.last.at.plus - span.first.at.plus;
    let gap = (delay as u64).max(distance as u64);
    let cycle = gap + span.first.at.plus as u64;
    Some(Meet { gap, cycle })
}

/// F12 at the callee's event with this number and delay: the evidence where it is broken.
fn gap_at(
    place: &Place,
    instance: usize,
    at: &[Offset],
    number: usize,
    delay: Delay,
) -> Option<Meet>
    requires good { IsGoodDelay (seen_delay delay) }
    ensures { (sig : Signature) (with : Scope) (v : Invocation)
        → IsInvokedIn place.now instance sig at.now with v → ListsUses place.now.tables.now instance with v.inst → HasGoodTimes sig → HasDelay sig number (seen_delay delay) → KeepsUsesApart with v
        → MatchOption result (EndsAt with v number) (GapAt with v number) }
{
    let own = use_of(at, number, delay)?;
    let span = span_of(place.tables, instance, own, number);
    let event = place.comp.events.get(span.first.at.event)?;
    overrun(span, event.delay)
}

/// F12 of an invocation at these times, of the instance with this number: the evidence for
/// the first event of the callee that breaks it.
pub fn first_gap(place: &Place, instance: usize, sig: &TimeSig, at: &[Offset]) -> Option<Meet>
    requires times { HasGoodTimes (seen sig.now) }
    ensures { (with : Scope) (v : Invocation)
        → IsInvokedIn place.now instance (seen sig.now) at.now with v → ListsUses place.now.tables.now instance with v.inst → KeepsUsesApart with v
        → MatchOption result (EndsInTime with v) (λ meet. IsGap with v meet.gap meet.cycle) }
{
    for (number, event) in sig.events.iter().enumerate() {
        if let Some(meet) = gap_at(place, instance, at, number, event.delay) {
            return Some(meet);
        }
    }
    None
}
