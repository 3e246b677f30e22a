//! The uses so far of the events of instances, in the order in which they start.
ghost use Rattle.std.specs.Prelude.{◌≡◌, ℕ, ◌<◌, ◌≤◌, ◌^◌, None, Some, OnOk, length, slice_index_or};
ghost use Rattle.std.specs.BTreeMap.{get};
ghost use Rattle.fil_place.specs.inside.StoredUses.{IsAlone, key_cmp, use_in};
ghost use Rattle.fil_place.specs.declared.uses.Use as numbers;

use crate::uses::Use;
use hw_bits::Memory;
use std::alloc::Global;
use std::collections::BTreeMap;

/// The use of an instance that came first, of the event with this number.
#[derive(Clone, Copy)]
pub struct First {
    pub event: usize,
    pub held: Use,
    /// No other use of the instance came after it.
    pub alone: bool,
}

/// The uses so far. Most instances are used once: so the one that came first stands in a list, at the number of its instance, and
/// those that came after it in an ordered map: at the number of an instance, the number of an event of its callee, and the
/// offset at which a use of that event starts, this use. It stands for the first if that starts there too.
#[derive(Drop)]
pub struct Starts {
    firsts: Vec<Option<First>>,
    others: BTreeMap<(usize, usize, u16), Use>,
    ghost small: { (instance event start : ℕ) (held : numbers.Use) → use_in firsts.items others instance event start ≡ Some held
        → (start < 2 ^ 16) × (held.hold < 2 ^ 16) },
    ghost placed: { (instance event start : ℕ) (held : numbers.Use) → use_in firsts.items others instance event start ≡ Some held → held.at.plus ≡ start },
    ghost alone: { (instance event start : ℕ) → IsAlone (slice_index_or firsts.items instance None) → get key_cmp others (instance, event, start) ≡ None },
}

impl First {
    ghost use Rattle.std.specs.Prelude.{MatchOption};
    ghost use Rattle.fil_place.specs.inside.StoredUses.{IsFrom, IsUntil};

    /// Its use, if it is of this event and starts at this offset or later.
    fn held_from(self, event: usize, start: u16) -> Option<Use>
        ensures { MatchOption result (¬ IsFrom self event start) (λ held. (held ≡ self.held) × IsFrom self event start) }
    {
        if self.event == event && start <= self.held.at.plus {
            Some(self.held)
        } else {
            None
        }
    }

    /// Its use, if it is of this event and starts at this offset or before it.
    fn held_until(self, event: usize, start: u16) -> Option<Use>
        ensures { MatchOption result (¬ IsUntil self event start) (λ held. (held ≡ self.held) × IsUntil self event start) }
    {
        if self.event == event && self.held.at.plus <= start {
            Some(self.held)
        } else {
            None
        }
    }
}

/// The one of two uses that starts first; of two that start together the one that is given first.
fn earlier_of(one: Option<Use>, other: Option<Use>) -> Option<Use>
    ensures only { other ≡ None → result ≡ one }
    ensures only_other { one ≡ None → result ≡ other }
    ensures one { (a b : numbers.Use) → one ≡ Some a → other ≡ Some b → a.at.plus ≤ b.at.plus → result ≡ Some a }
    ensures other { (a b : numbers.Use) → one ≡ Some a → other ≡ Some b → b.at.plus < a.at.plus → result ≡ Some b }
{
    match (one, other) {
        (Some(one), Some(other)) if other.at.plus < one.at.plus => Some(other),
        (Some(one), _) => Some(one),
        (None, other) => other,
    }
}

/// The one of two uses that starts last; of two that start together the one that is given first.
fn later_of(one: Option<Use>, other: Option<Use>) -> Option<Use>
    ensures only { other ≡ None → result ≡ one }
    ensures only_other { one ≡ None → result ≡ other }
    ensures one { (a b : numbers.Use) → one ≡ Some a → other ≡ Some b → b.at.plus ≤ a.at.plus → result ≡ Some a }
    ensures other { (a b : numbers.Use) → one ≡ Some a → other ≡ Some b → a.at.plus < b.at.plus → result ≡ Some b }
{
    match (one, other) {
        (Some(one), Some(other)) if one.at.plus < other.at.plus => Some(other),
        (Some(one), _) => Some(one),
        (None, other) => other,
    }
}

/// Puts places without a use last, until there is one with this number.
fn lengthen(firsts: &mut Vec<Option<First>>, number: usize) -> Result<(), Memory>
    ensures long { OnOk result (number < length firsts.new.items) }
    ensures same { (instance : ℕ) → slice_index_or firsts.new.items instance None ≡ slice_index_or firsts.old.items instance None }
{
    for _ in firsts.len()..=number {
        firsts.push(None)?;
    }
    Ok(())
}

impl Starts {
    ghost use Rattle.std.specs.Prelude.{IfSome, MatchOption};
    ghost use Rattle.fil_place.specs.inside.StoredUses.{HasNoOtherFrom, HasNoOtherUntil, IsFirstOther, IsLastOther};
    ghost use Rattle.fil_place.specs.Starts.{IsFirstFrom, IsLastUntil, PutsUse, StartsNoneFrom, StartsNoneUntil, use_at};

    /// No uses.
    pub fn new(alloc: Global) -> Starts
        ensures { (instance event start : ℕ) → use_at result instance event start ≡ None }
    {
        Starts {
            firsts: Vec::new(alloc),
            others: BTreeMap::new(alloc),
        }
    }

    /// The use of an instance that came first.
    fn first_of(&self, instance: usize) -> Option<First>
        ensures { result ≡ slice_index_or self.now.firsts.items instance None }
    {
        self.firsts.get(instance).copied().flatten()
    }

    /// Adds a use of the event with this number of the instance with this number.
    pub fn add(&mut self, instance: usize, event: usize, held: Use) -> Result<(), Memory>
        requires small { held.hold < 2 ^ 16 }
        ensures { OnOk result (PutsUse instance event held self.old self.new) }
    {
        match self.first_of(instance) {
            None => self.add_first(instance, event, held),
            Some(first) => {
                self.firsts[instance] = Some(First {
                    alone: false,
                    ..first
                });
                let start = held.at.plus;
                let _before = self.others.insert((instance, event, start), held)?;
                Ok(())
            }
        }
    }

    /// Adds the use of an instance that comes first.
    fn add_first(&mut self, instance: usize, event: usize, held: Use) -> Result<(), Memory>
        requires small { held.hold < 2 ^ 16 }
        requires none { slice_index_or self.old.firsts.items instance None ≡ None }
        ensures { OnOk result (PutsUse instance event held self.old self.new) }
    {
        lengthen(&mut self.firsts, instance)?;
        self.firsts[instance] = Some(First {
            event,
            held,
            alone: true,
        });
        Ok(())
    }

    /// Of the uses of an event that start at this offset or later, the first.
    pub fn first_from(&self, instance: usize, event: usize, start: u16) -> Option<Use>
        ensures found { MatchOption result (StartsNoneFrom self.now instance event start) (IsFirstFrom self.now instance event start) }
        ensures small { IfSome result (λ held. held.hold < 2 ^ 16) }
    {
        let first = self.first_of(instance)?;
        let own = first.held_from(event, start);
        if first.alone {
            return own;
        }
        earlier_of(self.other_from(instance, event, start), own)
    }

    /// Of the uses of an event that start at this offset or before it, the last.
    pub fn last_until(&self, instance: usize, event: usize, start: u16) -> Option<Use>
        ensures found { MatchOption result (StartsNoneUntil self.now instance event start) (IsLastUntil self.now instance event start) }
        ensures small { IfSome result (λ held. held.hold < 2 ^ 16) }
    {
        let first = self.first_of(instance)?;
        let own = first.held_until(event, start);
        if first.alone {
            return own;
        }
        later_of(self.other_until(instance, event, start), own)
    }

    /// Of the uses of an event that did not come first of their instance and start at this offset or later, the first.
    fn other_from(&self, instance: usize, event: usize, start: u16) -> Option<Use>
        ensures { MatchOption result (HasNoOtherFrom self.now.others instance event start) (IsFirstOther self.now.others instance event start) }
    {
        let (key, held) = self.others.range((instance, event, start)..).next()?;
        if key.0 == instance && key.1 == event {
            Some(*held)
        } else {
            None
        }
    }

    /// Of the uses of an event that did not come first of their instance and start at this offset or before it, the last.
    fn other_until(&self, instance: usize, event: usize, start: u16) -> Option<Use>
        ensures { MatchOption result (HasNoOtherUntil self.now.others instance event start) (IsLastOther self.now.others instance event start) }
    {
        let (key, held) = self.others.range(..=(instance, event, start)).next_back()?;
        if key.0 == instance && key.1 == event {
            Some(*held)
        } else {
            None
        }
    }
}
