//! What the assignments to a port give it.
ghost use Rattle.std.specs.Prelude.{◌≡◌, ◌==◌, [], ◌∷◌, ℕ, List, true, false, if◌then◌else◌, slice_index, IfOk};
ghost use Rattle.net_steps.specs.Drivers.{ActAlike, AddsChoices, AddsPort, SameWhere};
ghost use Rattle.net_steps.specs.Operations.{is_on};
ghost use Rattle.net_steps.specs.Steps.{AddsSlot};
ghost use Rattle.net_steps.specs.Truths.{is_true};

use crate::apart::{never_both, never_two};
use crate::choice::Choice;
use crate::clashes::Clash;
use crate::operation::Operation;
use crate::steps::Steps;
use crate::truth::{Truth, are_opposite, plain};
use hw_bits::Memory;
use std::alloc::Global;

/// An assignment to a port: when it acts, and the slot of its source.
#[derive(Clone, Copy, Debug)]
pub struct Driver {
    pub truth: Truth,
    pub source: u32,
}

/// The slot of a port with these drivers. Where two can act at once it adds that they clash.
pub fn drive(
    alloc: Global,
    steps: &mut Steps,
    clashes: &mut Vec<Clash>,
    port: usize,
    drivers: &[Driver],
) -> Result<u32, Memory>
    ensures { IfOk result
        (AddsPort steps.old steps.new clashes.old.items clashes.new.items port drivers.now) }
{
    let possible = possible_of(alloc, drivers)?;
    drive_by(alloc, steps, clashes, port, possible.as_slice())
}

/// The drivers but for those that never act.
fn possible_of(alloc: Global, drivers: &[Driver]) -> Result<Vec<Driver>, Memory>
    ensures { IfOk result (λ possible. ActAlike possible.items drivers.now) }
{
    let mut possible = Vec::new(alloc);
    for driver in drivers {
        if driver.truth.is_never() {
            continue;
        }
        possible.push(*driver)?;
    }
    Ok(possible)
}

/// The same by how many drivers there are.
fn drive_by(
    alloc: Global,
    steps: &mut Steps,
    clashes: &mut Vec<Clash>,
    port: usize,
    drivers: &[Driver],
) -> Result<u32, Memory>
    ensures { IfOk result
        (AddsPort steps.old steps.new clashes.old.items clashes.new.items port drivers.now) }
{
    match drivers {
        [] => steps.define(Operation::Constant(0)),
        [only] => gate(steps, *only),
        [first, second] => drive_by_two(steps, clashes, port, *first, *second),
        _ => choose_only(alloc, steps, clashes, port, drivers),
    }
}

/// The slot of a port with one driver: its source where it acts, else 0.
fn gate(steps: &mut Steps, driver: Driver) -> Result<u32, Memory>
    ensures { IfOk result
        (AddsSlot steps.old steps.new (λ others slots. if is_true slots driver.truth then slice_index slots driver.source else 0)) }
{
    let zero = steps.define(Operation::Constant(0))?;
    select(steps, driver.truth, driver.source, zero)
}

/// A slot with the value of one of two, by a truth.
fn select(steps: &mut Steps, truth: Truth, yes: u32, no: u32) -> Result<u32, Memory>
    ensures { IfOk result
        (AddsSlot steps.old steps.new (λ others slots. if is_true slots truth then slice_index slots yes else slice_index slots no)) }
{
    match truth {
        Truth::Fixed(on) => Ok(if on { yes } else { no }),
        Truth::Slot { slot, negated } => {
            if negated {
                chosen_slot(steps, slot, no, yes)
            } else {
                chosen_slot(steps, slot, yes, no)
            }
        }
    }
}

/// A slot with the value of one of two slots, by whether a third is 1. It makes no step where that is known, or where one of them,
/// or the third, has that value anyway.
pub fn chosen_slot(steps: &mut Steps, on: u32, yes: u32, no: u32) -> Result<u32, Memory>
    ensures { IfOk result
        (AddsSlot steps.old steps.new (λ others slots. if is_on slots on then slice_index slots yes else slice_index slots no)) }
{
    let yes = same_where_on(steps, on, yes);
    let no = same_where_off(steps, on, no);
    if let Some(number) = steps.number(on) {
        return Ok(if number == 1 { yes } else { no });
    }
    if yes == no {
        return Ok(yes);
    }
    if steps.is_bit(on) && steps.is_constant(yes, 1) && steps.is_constant(no, 0) {
        return Ok(on);
    }
    steps.define(Operation::Choose {
        on,
        value: yes,
        other: no,
    })
}

/// A slot that has the value of another where `on` is 1: one that it chooses there, if it does.
fn same_where_on(steps: &Steps, on: u32, slot: u32) -> u32
    ensures { SameWhere steps.now on true slot result }
{
    match steps.operation(slot) {
        Some(Operation::Choose { on: by, value, .. }) if by == on => value,
        _ => slot,
    }
}

/// The same where `on` is not 1.
fn same_where_off(steps: &Steps, on: u32, slot: u32) -> u32
    ensures { SameWhere steps.now on false slot result }
{
    match steps.operation(slot) {
        Some(Operation::Choose { on: by, other, .. }) if by == on => other,
        _ => slot,
    }
}

/// The slot of a port with two drivers. It adds that they clash, unless they never act both.
fn drive_by_two(
    steps: &mut Steps,
    clashes: &mut Vec<Clash>,
    port: usize,
    first: Driver,
    second: Driver,
) -> Result<u32, Memory>
    ensures { IfOk result
        (AddsPort steps.old steps.new clashes.old.items clashes.new.items port (first ∷ second ∷ [])) }
{
    if are_opposite(first.truth, second.truth) {
        select(steps, first.truth, first.source, second.source)
    } else {
        pick(steps, clashes, port, first, second)
    }
}

/// The slot with the value of the one of two drivers that acts, and 0 where both do. It adds that they clash, if both can act.
fn pick(
    steps: &mut Steps,
    clashes: &mut Vec<Clash>,
    port: usize,
    driver: Driver,
    other: Driver,
) -> Result<u32, Memory>
    ensures { IfOk result
        (AddsPort steps.old steps.new clashes.old.items clashes.new.items port (driver ∷ other ∷ [])) }
{
    let first = plain(steps, driver.truth)?;
    let second = plain(steps, other.truth)?;
    let slot = steps.define(Operation::Pick {
        first,
        value: driver.source,
        second,
        other: other.source,
    })?;
    if never_both(steps, driver.truth, other.truth) {
        return Ok(slot);
    }
    clashes.push(Clash {
        first,
        second,
        port,
    })?;
    Ok(slot)
}

/// The slot with the value of the one of several drivers that acts, and 0 where two or more do. It adds that they clash, if two
/// can act.
fn choose_only(
    alloc: Global,
    steps: &mut Steps,
    clashes: &mut Vec<Clash>,
    port: usize,
    drivers: &[Driver],
) -> Result<u32, Memory>
    ensures { IfOk result
        (AddsPort steps.old steps.new clashes.old.items clashes.new.items port drivers.now) }
{
    let from = steps.choice_count()?;
    add_choices(steps, drivers)?;
    let end = steps.choice_count()?;
    let count = end - from;
    let slot = steps.define(Operation::Only { from, count })?;
    let apart = never_two(alloc, steps, drivers)?;
    if apart {
        return Ok(slot);
    }
    let several = steps.define(Operation::Several { from, count })?;
    clashes.push(Clash {
        first: several,
        second: several,
        port,
    })?;
    Ok(slot)
}

/// Adds the drivers as choices, in their order.
fn add_choices(steps: &mut Steps, drivers: &[Driver]) -> Result<(), Memory>
    ensures { IfOk result (λ _. AddsChoices steps.old steps.new drivers.now) }
{
    for driver in drivers {
        let on = plain(steps, driver.truth)?;
        steps.add_choice(Choice {
            on,
            value: driver.source,
        })?;
    }
    Ok(())
}
