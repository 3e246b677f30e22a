//! A netlist compiled to numbered slots, one for each port.
ghost use Rattle.std.specs.Prelude.{◌≡◌, ◌^◌, ◌<◌, ◌≤◌, ◌++◌, length, replicate, map, true, All, Contains, IfOk};
ghost use Rattle.std.specs.List.{range_with_len};
ghost use Rattle.hw_bits.specs.declared.bits.TheConstants.{MAX_WIDTH};
ghost use Rattle.hw_bits.specs.Values.{widths_of};
ghost use Rattle.hw_names.specs.Name.{text_of};
ghost use Rattle.hw_prims.specs.Table.{IsMade, outputs_of};
ghost use Rattle.net_core.specs.Graph.{source_ports};
ghost use Rattle.net_core.specs.Guard.{source_tree};
ghost use Rattle.net_core.specs.Netlist.{netlist_of};
ghost use Rattle.net_core.specs.Numbers.{HasNumbers, SourceHasNumbers};
ghost use Rattle.net_core.specs.Rules.{IsValid, literal_fits};
ghost use Rattle.net_core.specs.Table.{IsTableOf};
ghost use Rattle.net_sim.specs.Compiled.{IsSource, AreSources, givers_of, AreOpening};

use crate::cells::CellPorts;
use crate::lower::Lowered;
use crate::port_order::PortOrder;
use crate::wires::find_port;
use hw_bits::{Bits, Memory};
use hw_names::{NameId, Names};
use hw_prims::{CellState, Prim};
use net_core::{Net, Src, Table};
use std::alloc::Global;

/// Where an assignment takes its value from: the slot of a port, or a literal.
#[derive(Clone, Copy, Debug)]
pub enum Source {
    Slot(usize),
    Fixed(Bits),
}

/// What gives a port its value in a row: the row's inputs, an output of a cell, or the assignments to it.
/// Cells and outputs are counted from 0.
#[derive(Clone, Copy, Debug)]
pub enum Giver {
    Input,
    Output { cell: usize, output: usize },
    Driven,
}

/// A netlist with the order of its ports, and what is needed to evaluate it by numbers alone.
#[derive(Drop)]
pub struct Plan<'a> {
    pub net: &'a Net,
    pub table: &'a Table,
    pub order: &'a PortOrder,
    pub cells: Vec<CellPorts>,
    pub lowered: Lowered,
    pub givers: Vec<Giver>,
    pub shown: Vec<usize>,
}

/// Each assignment's source.
pub fn sources(alloc: Global, net: &Net, table: &Table) -> Result<Vec<Source>, Memory>
    requires valid { IsValid (netlist_of net.now) }
    requires numbers { HasNumbers net.now }
    requires table { IsTableOf (netlist_of net.now) table.now }
    ensures { IfOk result (λ sources. AreSources (netlist_of net.now) sources.items) }
{
    let mut sources = Vec::new(alloc);
    for set in &net.sets {
        sources.push(source_of(&table.names, &net.names, &set.src))?;
    }
    Ok(sources)
}

/// A source of the tree as a slot or a literal.
pub fn source_of(ports: &Names, names: &Names, src: &Src<NameId>) -> Source
    requires numbers { SourceHasNumbers names.now src.now }
    requires there { All (Contains ports.now) (source_ports (source_tree (text_of names.now) src.now)) }
    requires fits { literal_fits (source_tree (text_of names.now) src.now) ≡ true }
    ensures { IsSource ports.now (source_tree (text_of names.now) src.now) result }
{
    match src {
        Src::Port(id) => Source::Slot(find_port(ports, names, *id)),
        Src::Lit { width, value } => Source::Fixed(literal(*width, *value)),
    }
}

/// A literal that fits its width.
fn literal(width: u128, value: u128) -> Bits
    requires wide { 1 ≤ width }
    requires narrow { width ≤ MAX_WIDTH }
    requires fits { value < 2 ^ width }
    ensures value { result.value ≡ value }
    ensures width { result.width ≡ width }
{
    Bits::wrap(value, width as u8)
}

/// What gives each port its value.
pub fn givers(alloc: Global, net: &Net, cells: &[CellPorts]) -> Result<Vec<Giver>, Memory>
    ensures { IfOk result (λ givers. givers.items ≡ givers_of (netlist_of net.now) cells.now) }
{
    let mut givers = Vec::new(alloc);
    add_many(&mut givers, Giver::Input, net.ins.len())?;
    add_many(&mut givers, Giver::Driven, net.outs.len())?;
    add_many(&mut givers, Giver::Driven, net.wires.len())?;
    for (cell, ports) in cells.iter().enumerate() {
        add_many(&mut givers, Giver::Driven, ports.prim.inputs())?;
        add_outputs(&mut givers, cell, ports.prim)?;
    }
    Ok(givers)
}

/// Adds so many of one.
fn add_many(givers: &mut Vec<Giver>, giver: Giver, count: usize) -> Result<(), Memory>
    ensures { IfOk result (λ _. givers.new.items ≡ givers.old.items ++ replicate count giver) }
{
    for _made in 0..count {
        givers.push(giver)?;
    }
    Ok(())
}

/// Adds the outputs of a cell.
fn add_outputs(givers: &mut Vec<Giver>, cell: usize, prim: Prim) -> Result<(), Memory>
    ensures { IfOk result
        (λ _. givers.new.items
        ≡ givers.old.items ++ map (λ output. Giver.Output cell output) (range_with_len 0 (length (outputs_of prim)))) }
{
    for output in 0..prim.outputs() {
        givers.push(Giver::Output { cell, output })?;
    }
    Ok(())
}

/// A value of 0 for each port, of its width.
pub fn no_values(alloc: Global, table: &Table) -> Result<Vec<Bits>, Memory>
    requires { All (λ port. (1 ≤ port.width) × (port.width ≤ MAX_WIDTH)) table.now.ports.items }
    ensures { IfOk result (λ values. widths_of values.items ≡ map (λ port. port.width) table.now.ports.items) }
{
    let mut values = Vec::new(alloc);
    for port in &table.ports {
        values.push(Bits::wrap(0, port.width))?;
    }
    Ok(values)
}

/// Each cell with its opening state.
pub fn opening_states(alloc: Global, cells: &[CellPorts]) -> Result<Vec<CellState>, Memory>
    requires { All (λ cell. IsMade cell.prim) cells.now }
    ensures { IfOk result (λ states. AreOpening cells.now states.items) }
{
    let mut states = Vec::new(alloc);
    for cell in cells {
        states.push(CellState::new(alloc, cell.prim)?)?;
    }
    Ok(states)
}
