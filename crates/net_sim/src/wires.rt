//! Which port of a netlist reads which within a row.
ghost use Rattle.std.specs.Prelude.{◌≡◌, ◌+◌, ◌<◌, ◌^◌, List, [], length, map, slice_get, slice_index_or, Some, Contains, All, IfOk};
ghost use Rattle.std.specs.List.{flat_map};
ghost use Rattle.hw_names.specs.Name.{Text, text_of};
ghost use Rattle.hw_prims.specs.Table.{inputs_of, outputs_of, name_at};
ghost use Rattle.net_core.specs.Guard.{guard_option, guard_tree, guards_of, source_tree};
ghost use Rattle.net_core.specs.Graph.{guard_ports, guards_ports, option_ports, source_ports};
ghost use Rattle.net_core.specs.Netlist.{Netlist, netlist_of};
ghost use Rattle.net_core.specs.Numbers.{HasNumbers, GuardHasNumbers, SourceHasNumbers, WhenHasNumbers};
ghost use Rattle.net_core.specs.Rules.{ports_of, IsValid};
ghost use Rattle.net_core.specs.Table.{IsTableOf};
ghost use Rattle.net_sim.specs.Layout.{port_names, AreCellPorts};
ghost use Rattle.net_sim.specs.inside.Wires.{reading, set_readings, cell_readings, output_readings, prim_readings, net_readings, AreEntriesOf, AddReadings, HasCellAt};

use crate::cells::CellPorts;
use hw_bits::Memory;
use hw_graph::Entry;
use hw_names::{NameId, Names};
use net_core::{Guard, Net, Src, Table};
use std::alloc::Global;

/// An entry for each port and each port that it reads within a row; ports are by their numbers in the table.
pub fn net_reads(
    alloc: Global,
    net: &Net,
    table: &Table,
    cells: &[CellPorts],
) -> Result<Vec<Entry>, Memory>
    requires valid { IsValid (netlist_of net.now) }
    requires numbers { HasNumbers net.now }
    requires table { IsTableOf (netlist_of net.now) table.now }
    requires cells { AreCellPorts (netlist_of net.now) cells.now }
    requires room { length (ports_of (netlist_of net.now)) < 2 ^ 32 }
    ensures { IfOk result
        (λ entries. AreEntriesOf (port_names (netlist_of net.now)) (net_readings (netlist_of net.now)) entries.items) }
{
    let mut entries = Vec::new(alloc);
    add_set_reads(&mut entries, net, table)?;
    add_cells_reads(&mut entries, cells)?;
    Ok(entries)
}

/// Adds what the assignments' destinations read.
fn add_set_reads(entries: &mut Vec<Entry>, net: &Net, table: &Table) -> Result<(), Memory>
    requires valid { IsValid (netlist_of net.now) }
    requires numbers { HasNumbers net.now }
    requires table { IsTableOf (netlist_of net.now) table.now }
    ensures { IfOk result
        (λ _. AddReadings (port_names (netlist_of net.now)) (flat_map set_readings (netlist_of net.now).sets)
        entries.old.items entries.new.items) }
{
    for set in &net.sets {
        let port = find_port(&table.names, &net.names, set.dst);
        add_option_reads(entries, &table.names, port, &net.names, &set.guard)?;
        add_source_read(entries, &table.names, port, &net.names, &set.src)?;
    }
    Ok(())
}

/// The number of a port by its name in the tree.
pub fn find_port(ports: &Names, names: &Names, id: NameId) -> usize
    requires number { id.0 < length names.now }
    requires there { Contains ports.now (text_of names.now id) }
    ensures { slice_get ports.now result ≡ Some (text_of names.now id) }
{
    match ports.find(names.text(id)) {
        Some(found) => found.0 as usize,
        None => unreachable!(),
    }
}

/// Adds the ports that the guard of an assignment reads, if it has one.
fn add_option_reads(
    entries: &mut Vec<Entry>,
    ports: &Names,
    port: usize,
    names: &Names,
    guard: &Option<Guard<NameId>>,
) -> Result<(), Memory>
    requires port { port < length ports.now }
    requires numbers { WhenHasNumbers names.now guard.now }
    requires there { All (Contains ports.now) (option_ports (guard_option (text_of names.now) guard.now)) }
    ensures { IfOk result
        (λ _. AddReadings ports.now
        (map (reading (slice_index_or ports.now port [])) (option_ports (guard_option (text_of names.now) guard.now)))
        entries.old.items entries.new.items) }
{
    match guard {
        Some(guard) => add_guard_reads(entries, ports, port, names, guard),
        None => Ok(()),
    }
}

/// Adds the ports that a guard reads. It goes over a run of `!` by a loop, so that the stack holds.
#[cycle(add_guard_reads)]
fn add_guard_reads(
    entries: &mut Vec<Entry>,
    ports: &Names,
    port: usize,
    names: &Names,
    guard: &Guard<NameId>,
) -> Result<(), Memory>
    requires port { port < length ports.now }
    requires numbers { GuardHasNumbers names.now guard.now }
    requires there { All (Contains ports.now) (guard_ports (guard_tree (text_of names.now) guard.now)) }
    ensures { IfOk result
        (λ _. AddReadings ports.now
        (map (reading (slice_index_or ports.now port [])) (guard_ports (guard_tree (text_of names.now) guard.now)))
        entries.old.items entries.new.items) }
{
    let mut inner = guard;
    loop {
        match inner {
            Guard::Not(negated) => inner = negated,
            Guard::All(guards) | Guard::Any(guards) => {
                return add_guards_reads(entries, ports, port, names, guards);
            }
            Guard::Read(src) => return add_source_read(entries, ports, port, names, src),
            Guard::Test(_, left, right) => {
                add_source_read(entries, ports, port, names, left)?;
                return add_source_read(entries, ports, port, names, right);
            }
        }
    }
}

/// Adds the ports that the guards of a list read.
#[cycle(add_guard_reads)]
fn add_guards_reads(
    entries: &mut Vec<Entry>,
    ports: &Names,
    port: usize,
    names: &Names,
    guards: &[Guard<NameId>],
) -> Result<(), Memory>
    requires port { port < length ports.now }
    requires numbers { All (GuardHasNumbers names.now) guards.now }
    requires there { All (Contains ports.now) (guards_ports (guards_of (map (guard_tree (text_of names.now)) guards.now))) }
    ensures { IfOk result
        (λ _. AddReadings ports.now
        (map (reading (slice_index_or ports.now port [])) (guards_ports (guards_of (map (guard_tree (text_of names.now)) guards.now))))
        entries.old.items entries.new.items) }
{
    for guard in guards {
        add_guard_reads(entries, ports, port, names, guard)?;
    }
    Ok(())
}

/// Adds the port that a source reads, if it is one.
fn add_source_read(
    entries: &mut Vec<Entry>,
    ports: &Names,
    port: usize,
    names: &Names,
    src: &Src<NameId>,
) -> Result<(), Memory>
    requires port { port < length ports.now }
    requires numbers { SourceHasNumbers names.now src.now }
    requires there { All (Contains ports.now) (source_ports (source_tree (text_of names.now) src.now)) }
    ensures { IfOk result
        (λ _. AddReadings ports.now
        (map (reading (slice_index_or ports.now port [])) (source_ports (source_tree (text_of names.now) src.now)))
        entries.old.items entries.new.items) }
{
    if let Src::Port(id) = src {
        let value = find_port(ports, names, *id);
        entries.push(Entry { key: port, value })?;
    }
    Ok(())
}

/// Adds what the cells' outputs read.
fn add_cells_reads(entries: &mut Vec<Entry>, cells: &[CellPorts]) -> Result<(), Memory>
    requires room { All (λ cell. cell.first + length (inputs_of cell.prim) + length (outputs_of cell.prim) < 2 ^ 63) cells.now }
    ensures { IfOk result
        (λ _. (n : Netlist) → AreCellPorts n cells.now
        → AddReadings (port_names n) (flat_map cell_readings n.cells) entries.old.items entries.new.items) }
{
    for cell in cells {
        add_cell_reads(entries, *cell)?;
    }
    Ok(())
}

/// Adds what a cell's outputs read.
fn add_cell_reads(entries: &mut Vec<Entry>, cell: CellPorts) -> Result<(), Memory>
    requires room { cell.first + length (inputs_of cell.prim) + length (outputs_of cell.prim) < 2 ^ 63 }
    ensures { IfOk result
        (λ _. (names : List Text) (name : Text) → HasCellAt names name cell.prim cell.first
        → AddReadings names (prim_readings name cell.prim) entries.old.items entries.new.items) }
{
    for output in 0..cell.prim.outputs() {
        add_output_reads(entries, cell, output)?;
    }
    Ok(())
}

/// Adds what an output of a cell reads.
fn add_output_reads(entries: &mut Vec<Entry>, cell: CellPorts, output: usize) -> Result<(), Memory>
    requires room { cell.first + length (inputs_of cell.prim) + length (outputs_of cell.prim) < 2 ^ 63 }
    requires output { output < length (outputs_of cell.prim) }
    ensures { IfOk result
        (λ _. (names : List Text) (name : Text) → HasCellAt names name cell.prim cell.first
        → AddReadings names (output_readings name cell.prim (name_at (outputs_of cell.prim) output))
        entries.old.items entries.new.items) }
{
    let inputs = cell.prim.inputs();
    for input in 0..inputs {
        if cell.prim.through(input, output) {
            entries.push(Entry {
                key: cell.first + inputs + output,
                value: cell.first + input,
            })?;
        }
    }
    Ok(())
}
