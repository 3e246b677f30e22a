//! A netlist compiled to steps over slots.
ghost use Rattle.std.specs.Prelude.{◌≡◌, ◌+◌, ◌<◌, Some, length, map, IfOk};
ghost use Rattle.hw_names.specs.Name.{AreDistinct};
ghost use Rattle.net_core.specs.Netlist.{netlist_of};
ghost use Rattle.net_core.specs.Numbers.{HasNumbers};
ghost use Rattle.net_core.specs.Rules.{IsValid};
ghost use Rattle.net_core.specs.Table.{IsTableOf};
ghost use Rattle.net_sim.specs.Layout.{AreCellPorts, port_names};
ghost use Rattle.net_sim.specs.PortOrder.{IsPortOrderOf};
ghost use Rattle.net_row.specs.Kinds.{kept_in};
ghost use Rattle.net_row.specs.inside.Compiling.{AddsDriver, AddsDrivers, AddsPortSlot, AddsTruths, net_of};
ghost use Rattle.net_row.specs.inside.Ports.{IsMadeOf, IsNumbered};
ghost use Rattle.net_row.specs.Program.{IsProgram};

use crate::kinds::{Kinds, kinds_of};
use crate::levels::by_levels;
use crate::outputs::{next_kept, output_slot};
use crate::places::places_of;
use crate::program::Program;
use crate::slots::{PortSlots, Truths, first_tests, test_truth, tests_upto};
use hw_bits::Memory;
use net_core::{Net, Table};
use net_sim::{CellPorts, FlatGuards, Giver, PortOrder, Source, flat_guards, givers, sources};
use net_steps::{Clash, Driver, Equality, Operation, ProgramEnd, Steps, cut, drive};
use std::alloc::Global;

/// A netlist by numbers: what is compiled.
#[derive(Drop)]
pub struct Numbered<'a> {
    pub net: &'a Net,
    pub order: &'a PortOrder,
    pub cells: &'a [CellPorts],
    pub kinds: Kinds,
    pub givers: Vec<Giver>,
    pub sources: Vec<Source>,
    pub guards: FlatGuards,
    pub first_tests: Vec<usize>,
    /// The number of ports.
    pub ports: usize,
}

/// What is compiled so far.
#[derive(Drop)]
pub struct Made {
    pub steps: Steps,
    ports: PortSlots,
    truths: Truths,
    clashes: Vec<Clash>,
}

/// A netlist compiled after these steps, for the rows in which this holds.
pub fn compile(
    alloc: Global,
    numbered: &Numbered,
    opening: &[Operation],
    assumed: &[Equality],
) -> Result<Made, ProgramEnd>
    requires { IsNumbered (net_of numbered.now) numbered.now }
    ensures { IfOk result (IsMadeOf (net_of numbered.now) numbered.now) }
{
    let steps = first_steps(alloc, numbered, opening, assumed)?;
    let mut made = none_made(alloc, numbered, steps)?;
    let places = by_levels(alloc, numbered)?;
    for place in &places {
        if place.port >= numbered.ports {
            return Err(ProgramEnd::Unfit);
        }
        add_port(alloc, numbered, &mut made, place.port)?;
    }
    Ok(made)
}

/// The steps that are there at first, and what is assumed of each row.
fn first_steps(
    alloc: Global,
    numbered: &Numbered,
    opening: &[Operation],
    assumed: &[Equality],
) -> Result<Steps, ProgramEnd>
    requires { IsNumbered (net_of numbered.now) numbered.now }
    ensures { IfOk result
        (λ steps. steps.base ≡ kept_in numbered.now.cells.now + length (net_of numbered.now).ins) }
{
    let base = first_slot(numbered)?;
    let mut steps = Steps::new(alloc, base as usize);
    for operation in opening {
        steps.define(*operation)?;
    }
    assume_all(&mut steps, assumed)?;
    Ok(steps)
}

/// From now on the steps are for the rows in which all this holds.
fn assume_all(steps: &mut Steps, assumed: &[Equality]) -> Result<(), Memory>
    ensures { IfOk result (λ _. steps.new.base ≡ steps.old.base) }
{
    for equality in assumed {
        steps.assume(*equality)?;
    }
    Ok(())
}

/// The netlist by numbers, whose table, order and cells these are.
pub fn number<'a>(
    alloc: Global,
    net: &'a Net,
    table: &Table,
    order: &'a PortOrder,
    cells: &'a [CellPorts],
) -> Result<Numbered<'a>, Memory>
    requires valid { IsValid (netlist_of net.now) }
    requires numbers { HasNumbers net.now }
    requires table { IsTableOf (netlist_of net.now) table.now }
    requires distinct { AreDistinct (port_names (netlist_of net.now)) }
    requires order { IsPortOrderOf (netlist_of net.now) order.now }
    requires cells { AreCellPorts (netlist_of net.now) cells.now }
    ensures net { IfOk result (λ numbered. numbered.net.now ≡ net.now) }
    ensures cells { IfOk result (λ numbered. numbered.cells.now ≡ cells.now) }
    ensures order { IfOk result (λ numbered. numbered.order.now ≡ order.now) }
    ensures numbered { IfOk result (λ numbered. IsNumbered (netlist_of net.now) numbered) }
{
    let kinds = kinds_of(alloc, cells)?;
    let givers = givers(alloc, net, cells)?;
    let sources = sources(alloc, net, table)?;
    let guards = flat_guards(alloc, net, table)?;
    let first_tests = first_tests(alloc, guards.starts.as_slice())?;
    Ok(Numbered {
        net,
        order,
        cells,
        kinds,
        givers,
        sources,
        guards,
        first_tests,
        ports: table.names.len(),
    })
}

/// Nothing is compiled yet of a netlist but these steps.
fn none_made(alloc: Global, numbered: &Numbered, steps: Steps) -> Result<Made, Memory>
    requires numbered { IsNumbered (net_of numbered.now) numbered.now }
    requires base { steps.base ≡ kept_in numbered.now.cells.now + length (net_of numbered.now).ins }
    ensures { IfOk result (IsMadeOf (net_of numbered.now) numbered.now) }
{
    Ok(Made {
        steps,
        ports: PortSlots::new(alloc, numbered.ports)?,
        truths: Truths::new(alloc, numbered.guards.tests.len())?,
        clashes: Vec::new(alloc),
    })
}

/// The slot of the first step.
pub fn first_slot(numbered: &Numbered) -> Result<u32, ProgramEnd>
    requires { IsNumbered (net_of numbered.now) numbered.now }
    ensures { IfOk result
        (λ slot. slot ≡ kept_in numbered.now.cells.now + length (net_of numbered.now).ins) }
{
    slot_after(numbered.kinds.kept, numbered.net.ins.len())
}

/// The slot that lies so many after another.
fn slot_after(first: usize, count: usize) -> Result<u32, ProgramEnd>
    ensures { IfOk result (λ slot. slot ≡ first + count) }
{
    let last = u32::MAX as usize;
    if first > last || count > last - first {
        return Err(ProgramEnd::Memory);
    }
    Ok((first + count) as u32)
}

/// Gives a port a slot.
fn add_port(
    alloc: Global,
    numbered: &Numbered,
    made: &mut Made,
    port: usize,
) -> Result<(), ProgramEnd>
    requires numbered { IsNumbered (net_of numbered.now) numbered.now }
    requires made { IsMadeOf (net_of numbered.now) numbered.now made.old }
    requires port { port < length (port_names (net_of numbered.now)) }
    ensures { IfOk result (λ _. IsMadeOf (net_of numbered.now) numbered.now made.new) }
{
    if made.ports.slots[port].is_some() {
        return Err(ProgramEnd::Unfit);
    }
    let slot = port_slot(alloc, numbered, made, port)?;
    made.ports.slots[port] = Some(slot);
    Ok(())
}

/// The slot of a port that has none yet.
fn port_slot(
    alloc: Global,
    numbered: &Numbered,
    made: &mut Made,
    port: usize,
) -> Result<u32, ProgramEnd>
    requires numbered { IsNumbered (net_of numbered.now) numbered.now }
    requires made { IsMadeOf (net_of numbered.now) numbered.now made.old }
    requires port { port < length (port_names (net_of numbered.now)) }
    ensures { IfOk result (AddsPortSlot numbered.now made.old made.new port) }
{
    match numbered.givers[port] {
        Giver::Input => slot_after(numbered.kinds.kept, port),
        Giver::Output { cell, output } => output_slot(
            &mut made.steps,
            &made.ports,
            numbered.cells[cell],
            numbered.kinds.of_cells[cell],
            output,
        ),
        Giver::Driven => {
            let drivers = drivers(alloc, numbered, made, port)?;
            let Made { steps, clashes, .. } = made;
            Ok(drive(alloc, steps, clashes, port, drivers.as_slice())?)
        }
    }
}

/// The assignments to a port.
fn drivers(
    alloc: Global,
    numbered: &Numbered,
    made: &mut Made,
    port: usize,
) -> Result<Vec<Driver>, ProgramEnd>
    requires numbered { IsNumbered (net_of numbered.now) numbered.now }
    requires made { IsMadeOf (net_of numbered.now) numbered.now made.old }
    requires port { port < length (port_names (net_of numbered.now)) }
    ensures { IfOk result (λ drivers. AddsDrivers numbered.now made.old made.new port drivers.items) }
{
    let mut drivers = Vec::new(alloc);
    for number in numbered.order.sets(port) {
        drivers.push(driver(numbered, made, *number)?)?;
    }
    Ok(drivers)
}

/// An assignment as a driver.
fn driver(numbered: &Numbered, made: &mut Made, number: usize) -> Result<Driver, ProgramEnd>
    requires numbered { IsNumbered (net_of numbered.now) numbered.now }
    requires made { IsMadeOf (net_of numbered.now) numbered.now made.old }
    requires number { number < length (net_of numbered.now).sets }
    ensures { IfOk result (AddsDriver numbered.now made.old made.new number) }
{
    let source = made
        .ports
        .source(&mut made.steps, numbered.sources[number])?;
    add_truths(numbered, made, number)?;
    let truth = made.truths.get(numbered.guards.starts[number])?;
    Ok(Driver { truth, source })
}

/// Adds the truths of the tests of an assignment's guard.
fn add_truths(numbered: &Numbered, made: &mut Made, number: usize) -> Result<(), ProgramEnd>
    requires numbered { IsNumbered (net_of numbered.now) numbered.now }
    requires made { IsMadeOf (net_of numbered.now) numbered.now made.old }
    requires number { number < length (net_of numbered.now).sets }
    ensures { IfOk result (λ _. AddsTruths numbered.now made.old made.new) }
{
    let tests = numbered.guards.tests.as_slice();
    let end = tests_upto(numbered.guards.starts[number]);
    for place in numbered.first_tests[number]..end {
        let truth = test_truth(&mut made.steps, &made.ports, &made.truths, &tests[place])?;
        made.truths.of_tests[place] = Some(truth);
    }
    Ok(())
}

/// The program, when each port has a slot.
pub fn finish(alloc: Global, numbered: &Numbered, mut made: Made) -> Result<Program, ProgramEnd>
    requires numbered { IsNumbered (net_of numbered.now) numbered.now }
    requires made { IsMadeOf (net_of numbered.now) numbered.now made }
    ensures { IfOk result (IsProgram (net_of numbered.now) numbered.now.cells.now) }
{
    let next = next_kept(alloc, &mut made.steps, &made.ports, numbered.cells)?;
    let ports = port_slots(alloc, &made.ports)?;
    let places = places_of(
        alloc,
        numbered.cells,
        numbered.kinds.of_cells.as_slice(),
        ports.as_slice(),
    )?;
    let runs = cut(alloc, made.steps.operations())?;
    let choices = Vec::from_slice(alloc, made.steps.choices())?;
    let assumed = Vec::from_slice(alloc, made.steps.assumed())?;
    Ok(Program {
        ports,
        places,
        next,
        runs,
        choices,
        clashes: made.clashes,
        assumed,
    })
}

/// The slot of each port.
fn port_slots(alloc: Global, ports: &PortSlots) -> Result<Vec<u32>, ProgramEnd>
    ensures { IfOk result (λ slots. ports.now.slots.items ≡ map Some slots.items) }
{
    let mut slots = Vec::new(alloc);
    for port in 0..ports.slots.len() {
        slots.push(ports.get(port)?)?;
    }
    Ok(slots)
}
