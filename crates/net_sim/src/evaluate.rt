//! One row of a compiled netlist, and the edge that ends it.
ghost use Rattle.std.specs.Prelude.{◌≡◌, ◌+◌, ◌<◌, ◌≤◌, ◌↔◌, length, map, slice_get, slice_index, Some, IfSome};
ghost use Rattle.hw_bits.specs.Values.{values_of, widths_of};
ghost use Rattle.hw_prims.specs.Meaning.{output_values};
ghost use Rattle.hw_prims.specs.Table.{outputs_of, inputs_of, pin_widths};
ghost use Rattle.net_core.specs.Netlist.{netlist_of};
ghost use Rattle.net_sim.specs.Evaluated.{IsValueOf, Clashes, cell_inputs, AreMoved, AreCellInputs, IsLeastConflict};
ghost use Rattle.net_sim.specs.Layout.{port_names, port_widths, name_of};
ghost use Rattle.net_sim.specs.Plan.{IsPlan, ArePrims};
ghost use Rattle.net_sim.specs.inside.Settled.{FitsWidth, IsClash, settled_value};
ghost use Rattle.net_sim.specs.Sim.{IsEvaluated, port_row, input_row, states_of};

use crate::cells::CellPorts;
use crate::plan::{Giver, Plan};
use crate::settle::{Settled, settle};
use hw_bits::Bits;
use hw_graph::lesser_of;
use hw_names::Names;
use hw_prims::{Cell, CellState};

/// Evaluates a row: each port in the order. The answer is the least port by the bytes of its name that has a Conflict.
pub fn evaluate(
    plan: &Plan,
    inputs: &[Bits],
    states: &[CellState],
    values: &mut [Bits],
) -> Option<usize>
    requires plan { IsPlan plan.now }
    requires inputs { widths_of inputs.now ≡ map (λ p. p.width) (netlist_of plan.now.net.now).ins }
    requires states { ArePrims plan.now.cells.items states.now }
    requires values { widths_of values.old ≡ port_widths (netlist_of plan.now.net.now) }
    ensures widths { widths_of values.new ≡ port_widths (netlist_of plan.now.net.now) }
    ensures row { IsEvaluated
        (netlist_of plan.now.net.now)
        (values_of inputs.now)
        (map (λ s. s.state) states.now)
        (values_of values.new)
        result }
{
    let mut conflict = None;
    for port in plan.order.ports() {
        let settled = settle_port(plan, inputs, states, values, *port);
        values[*port] = settled.value(values[*port].width());
        conflict = conflict_with(&plan.table.names, conflict, settled, *port);
    }
    conflict
}

/// What drives a port, from the values of the ports that it reads.
fn settle_port(
    plan: &Plan,
    inputs: &[Bits],
    states: &[CellState],
    values: &[Bits],
    port: usize,
) -> Settled
    requires plan { IsPlan plan.now }
    requires inputs { widths_of inputs.now ≡ map (λ p. p.width) (netlist_of plan.now.net.now).ins }
    requires states { ArePrims plan.now.cells.items states.now }
    requires values { widths_of values.now ≡ port_widths (netlist_of plan.now.net.now) }
    requires port { port < length (port_names (netlist_of plan.now.net.now)) }
    ensures width { FitsWidth (slice_index (port_widths (netlist_of plan.now.net.now)) port) result }
    ensures value { IsValueOf
        (netlist_of plan.now.net.now)
        (input_row (netlist_of plan.now.net.now) (values_of inputs.now))
        (states_of (netlist_of plan.now.net.now) (map (λ s. s.state) states.now))
        (port_row (netlist_of plan.now.net.now) (values_of values.now))
        (name_of (netlist_of plan.now.net.now) port)
        (settled_value result) }
    ensures clash { IsClash result
        ↔ Clashes (netlist_of plan.now.net.now) (port_row (netlist_of plan.now.net.now) (values_of values.now)) port }
{
    match plan.givers[port] {
        Giver::Input => Settled::Driven(inputs[port].value()),
        Giver::Output { cell, output } => {
            let value = output_value(plan.cells[cell], &states[cell], values, output);
            Settled::Driven(value.value())
        }
        Giver::Driven => settle(plan, port, values),
    }
}

/// The value of a cell's output.
fn output_value(cell: CellPorts, state: &CellState, values: &[Bits], output: usize) -> Bits
    requires prim { state.now.prim ≡ cell.prim }
    requires inputs { cell_inputs (widths_of values.now) cell ≡ pin_widths (inputs_of cell.prim) }
    requires within { cell.first + length (inputs_of cell.prim) ≤ length values.now }
    requires output { output < length (outputs_of cell.prim) }
    ensures width { slice_get (pin_widths (outputs_of cell.prim)) output ≡ Some result.width }
    ensures value { result.value
        ≡ slice_index (output_values cell.prim state.now.state (cell_inputs (values_of values.now) cell)) output }
{
    let end = cell.first + cell.prim.inputs();
    state.comb(&values[cell.first..end], output)
}

/// The lesser of the Conflict that was found and that of this port, if it has one.
fn conflict_with(
    names: &Names,
    found: Option<usize>,
    settled: Settled,
    port: usize,
) -> Option<usize>
    requires found { IfSome found (λ other. other < length names.now) }
    requires port { port < length names.now }
    ensures { IsLeastConflict names.now settled found port result }
{
    match settled {
        Settled::Clash => Some(lesser_of(names, found, port)),
        Settled::Undriven | Settled::Driven(_) => found,
    }
}

/// The edge that ends a row: each cell moves on from its inputs.
pub fn step_cells(cells: &[CellPorts], values: &[Bits], states: &mut [CellState])
    requires prims { ArePrims cells.now states.old }
    requires inputs { AreCellInputs (widths_of values.now) cells.now }
    ensures { AreMoved cells.now (values_of values.now) (length cells.now) states.old states.new }
{
    for (number, state) in states.iter_mut().enumerate() {
        let cell = cells[number];
        let end = cell.first + cell.prim.inputs();
        state.step(&values[cell.first..end]);
    }
}
