//! The outputs of cells as slots.
ghost use Rattle.std.specs.Prelude.{◌≡◌, ◌+◌, Some, slice_get, IfOk};
ghost use Rattle.net_row.specs.Outputs.{AddsOutput, AddsNext, AddsNextOf, AreAddresses};
ghost use Rattle.net_row.specs.declared.kinds.Kind.TheVariants.{Stateless, Other};

use crate::kinds::Kind;
use crate::slots::PortSlots;
use hw_prims::Prim;
use net_sim::CellPorts;
use net_steps::{
    Operation, ProgramEnd, Steps, chosen_slot, gate_of_none, gate_of_one, gate_of_three,
    gate_of_two, product,
};
use std::alloc::Global;

/// A number of 32 bits.
fn short(number: usize) -> Result<u32, ProgramEnd>
    ensures { IfOk result (λ short. short ≡ number) }
{
    if number > u32::MAX as usize {
        return Err(ProgramEnd::Memory);
    }
    Ok(number as u32)
}

/// The slot of a kept value, by its place after the first one of its cell.
fn kept_slot(first: usize, place: usize) -> Result<u32, ProgramEnd>
    ensures { IfOk result (λ slot. slot ≡ first + place) }
{
    match first.checked_add(place) {
        Some(number) => short(number),
        None => Err(ProgramEnd::Memory),
    }
}

/// The slot of an input of a cell.
fn input_slot(ports: &PortSlots, cell: CellPorts, input: usize) -> Result<u32, ProgramEnd>
    ensures { IfOk result
        (λ slot. slice_get ports.now.slots.items (cell.first + input) ≡ Some (Some slot)) }
{
    match cell.first.checked_add(input) {
        Some(port) => ports.get(port),
        None => Err(ProgramEnd::Unfit),
    }
}

/// The slot of a cell's output.
pub fn output_slot(
    steps: &mut Steps,
    ports: &PortSlots,
    cell: CellPorts,
    kind: Kind,
    output: usize,
) -> Result<u32, ProgramEnd>
    ensures { IfOk result
        (AddsOutput steps.old steps.new ports.now.slots.items cell kind output) }
{
    match kind {
        Kind::Stateless => combined_slot(steps, ports, cell),
        Kind::Register(first) => kept_slot(first, output),
        Kind::Delay(first) => kept_slot(first, 0),
        Kind::FastMult(first) => kept_slot(first, 1),
        Kind::Other(number) => read_slot(steps, ports, cell, number, output),
    }
}

/// The slot of the output of a cell without a state.
fn combined_slot(steps: &mut Steps, ports: &PortSlots, cell: CellPorts) -> Result<u32, ProgramEnd>
    ensures { IfOk result
        (AddsOutput steps.old steps.new ports.now.slots.items cell Stateless 0) }
{
    let prim = cell.prim;
    match prim.inputs() {
        0 => gate_of_none(steps, prim),
        1 => {
            let a = input_slot(ports, cell, 0)?;
            gate_of_one(steps, prim, a)
        }
        2 => {
            let a = input_slot(ports, cell, 0)?;
            let b = input_slot(ports, cell, 1)?;
            gate_of_two(steps, prim, a, b)
        }
        3 => {
            let on = input_slot(ports, cell, 0)?;
            let value = input_slot(ports, cell, 1)?;
            let other = input_slot(ports, cell, 2)?;
            gate_of_three(steps, prim, on, value, other)
        }
        _ => Err(ProgramEnd::Unfit),
    }
}

/// The slot of an output of a cell that keeps its state by itself.
fn read_slot(
    steps: &mut Steps,
    ports: &PortSlots,
    cell: CellPorts,
    number: usize,
    output: usize,
) -> Result<u32, ProgramEnd>
    ensures { IfOk result
        (AddsOutput steps.old steps.new ports.now.slots.items cell (Other number) output) }
{
    if output > u8::MAX as usize {
        return Err(ProgramEnd::Unfit);
    }
    let other = short(number)?;
    let zero = steps.define(Operation::Constant(0))?;
    let (first, second) = address_slots(ports, cell, output, zero)?;
    Ok(steps.define(Operation::Output {
        other,
        output: output as u8,
        first,
        second,
    })?)
}

/// The slots of the addresses that an output of a memory reads; this one where it reads none.
fn address_slots(
    ports: &PortSlots,
    cell: CellPorts,
    output: usize,
    none: u32,
) -> Result<(u32, u32), ProgramEnd>
    ensures { IfOk result (AreAddresses ports.now.slots.items cell output) }
{
    if output > 0 {
        return Ok((none, none));
    }
    match cell.prim {
        Prim::StdMemD1 { .. } => {
            let first = input_slot(ports, cell, 0)?;
            Ok((first, none))
        }
        Prim::StdMemD2 { .. } => {
            let first = input_slot(ports, cell, 0)?;
            let second = input_slot(ports, cell, 1)?;
            Ok((first, second))
        }
        _ => Ok((none, none)),
    }
}

/// The slots of what is kept after a row, in the order of what is kept.
pub fn next_kept(
    alloc: Global,
    steps: &mut Steps,
    ports: &PortSlots,
    cells: &[CellPorts],
) -> Result<Vec<u32>, ProgramEnd>
    ensures { IfOk result
        (λ next. AddsNext steps.old steps.new ports.now.slots.items cells.now next.items) }
{
    let mut next = Vec::new(alloc);
    for cell in cells {
        add_next(&mut next, steps, ports, *cell)?;
    }
    Ok(next)
}

/// Adds the slots of what a cell keeps after a row.
fn add_next(
    next: &mut Vec<u32>,
    steps: &mut Steps,
    ports: &PortSlots,
    cell: CellPorts,
) -> Result<(), ProgramEnd>
    ensures { IfOk result
        (λ _. AddsNextOf steps.old steps.new ports.now.slots.items cell next.old.items next.new.items) }
{
    match cell.prim {
        Prim::StdReg { .. } => {
            let data = input_slot(ports, cell, 0)?;
            let enable = input_slot(ports, cell, 1)?;
            let kept = kept_slot(next.len(), 0)?;
            next.push(chosen_slot(steps, enable, data, kept)?)?;
            next.push(enable)?;
        }
        Prim::FilDelay { .. } => next.push(input_slot(ports, cell, 0)?)?,
        Prim::FilFastMult { w } => {
            let left = input_slot(ports, cell, 0)?;
            let right = input_slot(ports, cell, 1)?;
            let kept = kept_slot(next.len(), 0)?;
            next.push(product(steps, w, left, right)?)?;
            next.push(kept)?;
        }
        _ => {}
    }
    Ok(())
}
