//! The simulation of a netlist, row by row.
ghost use Rattle.std.specs.Prelude.{◌≡◌, ◌<◌, length, map, slice_get, Some, Err, None, IfOk};
ghost use Rattle.hw_bits.specs.Values.{values_of, widths_of};
ghost use Rattle.net_core.specs.Netlist.{netlist_of};
ghost use Rattle.net_core.specs.Numbers.{HasNumbers};
ghost use Rattle.net_core.specs.Rules.{IsValid};
ghost use Rattle.net_core.specs.Table.{IsTableOf};
ghost use Rattle.net_sim.specs.Layout.{port_widths};
ghost use Rattle.net_sim.specs.PortOrder.{IsPortOrderOf};
ghost use Rattle.net_sim.specs.Shown.{shown_cells, HasWord, HasWordWidth};
ghost use Rattle.net_sim.specs.Sim.{IsNewSim, IsLoadOfSim, IsWordOfSim, IsWordCountOfSim, IsRowOfSim, IsEdgeOfSim, IfRunning, IfStopped, IfEvaluated, IfNotEvaluated, conflict_in};

use crate::cells::cell_ports;
use crate::evaluate::{evaluate, step_cells};
use crate::lower::lower;
use crate::plan::{Plan, givers, no_values, opening_states};
use crate::port_order::PortOrder;
use crate::shown::{load_word, shown_cells};
use hw_bits::{Bits, Memory};
use hw_prims::CellState;
use net_core::{Net, Table};
use std::alloc::Global;
use std::marker::Model;

/// How far a simulation has come.
#[derive(Clone, Copy, Debug, PartialEq, Eq)]
pub enum Phase {
    /// No row was evaluated.
    Fresh,
    /// A row was evaluated, without a Conflict.
    Evaluated,
    /// The edge ended the last row.
    Stepped,
    /// A Conflict at this port ended the run.
    Stopped(usize),
}

/// A port that two assignments or more drive in one row, by its number.
#[derive(Clone, Copy, Debug, PartialEq, Eq)]
pub struct Conflict {
    pub port: usize,
}

/// The simulation of a netlist. After `new` it takes no memory.
#[derive(Drop)]
pub struct Sim<'a> {
    plan: Plan<'a>,
    states: Vec<CellState>,
    values: Vec<Bits>,
    phase: Phase,
}

impl<'a> Model for Sim<'a> {
    ghost use Rattle.std.specs.Prelude.{map};
    ghost use Rattle.hw_bits.specs.Values.{values_of};
    ghost use Rattle.hw_prims.specs.Cell.{CellValue};
    ghost use Rattle.net_sim.specs.Sim.{SimValue};
    ghost use Rattle.net_sim.specs.Kept.{IsKept};
    ghost use Rattle.net_core.specs.contracts.net.Net as net_type;
    ghost use Rattle.std.specs.Coded.{codes};

    ghost Value = { SimValue };

    ghost coded = { Prim.hlevel (codes, net_type.the_row.coded) };

    ghost view = { λ s. record {
      net = s.plan.net.now;
      states = map (λ (c : CellValue). c.state) s.states.items;
      values = values_of s.values.items;
      phase = s.phase;
    } };

    ghost invariant = { λ s. IsKept s.plan s.states.items s.values.items };
}

impl<'a> Sim<'a> {
    /// A simulation of the netlist, whose table and order these are: each cell in its opening state.
    pub fn new(
        alloc: Global,
        net: &'a Net,
        table: &'a Table,
        order: &'a PortOrder,
    ) -> Result<Sim<'a>, Memory>
        requires valid { IsValid (netlist_of net.now) }
        requires numbers { HasNumbers net.now }
        requires table { IsTableOf (netlist_of net.now) table.now }
        requires order { IsPortOrderOf (netlist_of net.now) order.now }
        ensures { IfOk result (IsNewSim net.now) }
    {
        let count = table.names.len();
        let cells = cell_ports(alloc, net, count)?;
        let lowered = lower(alloc, net, table)?;
        let givers = givers(alloc, net, cells.as_slice())?;
        let shown = shown_cells(alloc, net)?;
        let states = opening_states(alloc, cells.as_slice())?;
        let values = no_values(alloc, table)?;
        Ok(Sim {
            plan: Plan {
                net,
                table,
                order,
                cells,
                lowered,
                givers,
                shown,
            },
            states,
            values,
            phase: Phase::Fresh,
        })
    }

    /// Puts a word into a shown memory, before the first row. Shown memories are counted from 0 in the order of the cells,
    /// and words from 0. Takes no memory.
    pub fn load(&mut self, mem: usize, at: usize, word: Bits)
        requires fresh { self.old.phase ≡ Phase.Fresh }
        requires place { HasWord (netlist_of self.old.net) mem at }
        requires width { HasWordWidth (netlist_of self.old.net) mem word.width }
        ensures { IsLoadOfSim self.old mem at word.value self.new }
    {
        let number = self.plan.shown[mem];
        load_word(self.states.as_mut_slice(), number, at, word);
    }

    /// The word of a shown memory now, after the last edge. Takes no memory.
    pub fn word(&self, mem: usize, at: usize) -> Bits
        requires { HasWord (netlist_of self.now.net) mem at }
        ensures value { IsWordOfSim self.now mem at result.value }
        ensures width { HasWordWidth (netlist_of self.now.net) mem result.width }
    {
        let number = self.plan.shown[mem];
        self.states[number].word(at)
    }

    /// The number of words of a shown memory; the shown memories are counted in the order of the cells. Takes no memory.
    pub fn word_count(&self, mem: usize) -> usize
        requires { mem < length (shown_cells (netlist_of self.now.net)) }
        ensures { IsWordCountOfSim self.now mem result }
    {
        let number = self.plan.shown[mem];
        self.states[number].word_count()
    }

    /// Evaluates a row from the values of the netlist's inputs, in their order. A Conflict is the least port that has one,
    /// by the bytes of its name; it ends the run, and each later row answers the same. Takes no memory.
    pub fn row(&mut self, inputs: &[Bits]) -> Result<(), Conflict>
        requires { widths_of inputs.now ≡ map (λ p. p.width) (netlist_of self.old.net).ins }
        ensures running { IfRunning self.old.phase
            (IsRowOfSim self.old (values_of inputs.now) self.new (conflict_in result)) }
        ensures stopped { IfStopped self.old.phase
            (λ port. (self.new ≡ self.old) × (result ≡ Err (record { port = port }))) }
    {
        if let Phase::Stopped(port) = self.phase {
            return Err(Conflict { port });
        }
        match evaluate(
            &self.plan,
            inputs,
            self.states.as_slice(),
            self.values.as_mut_slice(),
        ) {
            None => {
                self.phase = Phase::Evaluated;
                Ok(())
            }
            Some(port) => {
                self.phase = Phase::Stopped(port);
                Err(Conflict { port })
            }
        }
    }

    /// The edge that ends the row that was evaluated: each cell moves on. It changes nothing where no row was evaluated
    /// since the last edge, and after a Conflict. Takes no memory.
    pub fn edge(&mut self)
        ensures evaluated { IfEvaluated self.old.phase (IsEdgeOfSim self.old self.new) }
        ensures others { IfNotEvaluated self.old.phase (self.new ≡ self.old) }
    {
        if let Phase::Evaluated = self.phase {
            step_cells(
                self.plan.cells.as_slice(),
                self.values.as_slice(),
                self.states.as_mut_slice(),
            );
            self.phase = Phase::Stepped;
        }
    }

    /// The value of a port in the last row that was evaluated; 0 before the first. Takes no memory.
    pub fn value(&self, port: usize) -> Bits
        requires { port < length self.now.values }
        ensures value { slice_get self.now.values port ≡ Some result.value }
        ensures width { slice_get (port_widths (netlist_of self.now.net)) port ≡ Some result.width }
    {
        self.values[port]
    }

    /// How far the simulation has come.
    pub fn phase(&self) -> Phase
        ensures { result ≡ self.now.phase }
    {
        self.phase
    }
}
