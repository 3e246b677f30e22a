//! The simulation of a netlist, row by row.
ghost use Rattle.std.specs.Prelude.{◌≡◌, ◌<◌, length, map, slice_get, Some, Err, None, IfOk};
ghost use Rattle.hw_bits.specs.Values.{values_of, widths_of};
ghost use Rattle.net_core.specs.Netlist.{netlist_of};
ghost use Rattle.net_core.specs.Numbers.{HasNumbers};
ghost use Rattle.net_core.specs.Rules.{IsValid};
ghost use Rattle.net_core.specs.Table.{IsTableOf};
ghost use Rattle.net_sim.specs.Layout.{port_widths};
ghost use Rattle.net_sim.specs.PortOrder.{IsPortOrderOf};
ghost use Rattle.net_sim.specs.Shown.{shown_cells, HasWord, HasWordWidth};
ghost use Rattle.net_sim.specs.Sim.{IsNewSim, IsLoadOfSim, IsWordOfSim, IsWordCountOfSim, IsRowOfSim, IsEdgeOfSim, IfRunning, IfStopped, IfEvaluated, IfNotEvaluated, conflict_in};

use crate::flat::Flat;
use hw_bits::{Bits, Memory};
use net_core::{Net, Table};
use net_sim::{Conflict, Phase, PortOrder};
use net_steps::ProgramEnd;
use std::alloc::Global;
use std::marker::Model;

/// How a netlist is simulated: by the plain simulator, or by a program.
#[derive(Drop)]
enum Engine<'a> {
    Plain(net_sim::Sim<'a>),
    Flat(Flat<'a>),
}

/// The simulation of a netlist. After `new` it takes no memory. Where a port, or a literal, is wider than 64 bits, it goes
/// as the plain simulator does.
#[derive(Drop)]
pub struct Sim<'a> {
    engine: Engine<'a>,
}

impl<'a> Model for Sim<'a> {
    ghost use Rattle.net_core.specs.contracts.net.Net as net_type;
    ghost use Rattle.net_sim.specs.Sim.{SimValue};
    ghost use Rattle.std.specs.Coded.{codes};

    ghost Value = { SimValue };

    ghost coded = { Prim.hlevel (codes, net_type.the_row.coded) };

    ghost use Rattle.net_row.specs.Engines.{engine_value};

    ghost view = { λ s. engine_value s.engine };
}

impl<'a> Sim<'a> {
    /// A simulation of the netlist, whose table and order these are: each cell in its opening state.
    pub fn new(
        alloc: Global,
        net: &'a Net,
        table: &'a Table,
        order: &'a PortOrder,
    ) -> Result<Sim<'a>, Memory>
        requires valid { IsValid (netlist_of net.now) }
        requires numbers { HasNumbers net.now }
        requires table { IsTableOf (netlist_of net.now) table.now }
        requires order { IsPortOrderOf (netlist_of net.now) order.now }
        ensures { IfOk result (IsNewSim net.now) }
    {
        match Flat::new(alloc, net, table, order) {
            Ok(flat) => Ok(Sim {
                engine: Engine::Flat(flat),
            }),
            Err(ProgramEnd::Unfit) => {
                let plain = net_sim::Sim::new(alloc, net, table, order)?;
                Ok(Sim {
                    engine: Engine::Plain(plain),
                })
            }
            Err(ProgramEnd::Memory) => Err(Memory),
        }
    }

    /// Puts a word into a shown memory, before the first row. Shown memories are counted from 0 in the order of the cells,
    /// and words from 0. Takes no memory.
    pub fn load(&mut self, mem: usize, at: usize, word: Bits)
        requires fresh { self.old.phase ≡ Phase.Fresh }
        requires place { HasWord (netlist_of self.old.net) mem at }
        requires width { HasWordWidth (netlist_of self.old.net) mem word.width }
        ensures { IsLoadOfSim self.old mem at word.value self.new }
    {
        match &mut self.engine {
            Engine::Plain(sim) => sim.load(mem, at, word),
            Engine::Flat(sim) => sim.load(mem, at, word),
        }
    }

    /// The word of a shown memory now, after the last edge. Takes no memory.
    pub fn word(&self, mem: usize, at: usize) -> Bits
        requires { HasWord (netlist_of self.now.net) mem at }
        ensures value { IsWordOfSim self.now mem at result.value }
        ensures width { HasWordWidth (netlist_of self.now.net) mem result.width }
    {
        match &self.engine {
            Engine::Plain(sim) => sim.word(mem, at),
            Engine::Flat(sim) => sim.word(mem, at),
        }
    }

    /// The number of words of a shown memory; the shown memories are counted in the order of the cells. Takes no memory.
    pub fn word_count(&self, mem: usize) -> usize
        requires { mem < length (shown_cells (netlist_of self.now.net)) }
        ensures { IsWordCountOfSim self.now mem result }
    {
        match &self.engine {
            Engine::Plain(sim) => sim.word_count(mem),
            Engine::Flat(sim) => sim.word_count(mem),
        }
    }

    /// Evaluates a row from the values of the netlist's inputs, in their order. A Conflict is the least port that has one,
    /// by the bytes of its name; it ends the run, and each later row answers the same. Takes no memory.
    pub fn row(&mut self, inputs: &[Bits]) -> Result<(), Conflict>
        requires { widths_of inputs.now ≡ map (λ p. p.width) (netlist_of self.old.net).ins }
        ensures running { IfRunning self.old.phase
            (IsRowOfSim self.old (values_of inputs.now) self.new (conflict_in result)) }
        ensures stopped { IfStopped self.old.phase
            (λ port. (self.new ≡ self.old) × (result ≡ Err (record { port = port }))) }
    {
        match &mut self.engine {
            Engine::Plain(sim) => sim.row(inputs),
            Engine::Flat(sim) => sim.row(inputs),
        }
    }

    /// The edge that ends the row that was evaluated: each cell moves on. It changes nothing where no row was evaluated
    /// since the last edge, and after a Conflict. Takes no memory.
    pub fn edge(&mut self)
        ensures evaluated { IfEvaluated self.old.phase (IsEdgeOfSim self.old self.new) }
        ensures others { IfNotEvaluated self.old.phase (self.new ≡ self.old) }
    {
        match &mut self.engine {
            Engine::Plain(sim) => sim.edge(),
            Engine::Flat(sim) => sim.edge(),
        }
    }

    /// The value of a port in the last row that was evaluated; 0 before the first. Takes no memory.
    pub fn value(&self, port: usize) -> Bits
        requires { port < length self.now.values }
        ensures value { slice_get self.now.values port ≡ Some result.value }
        ensures width { slice_get (port_widths (netlist_of self.now.net)) port ≡ Some result.width }
    {
        match &self.engine {
            Engine::Plain(sim) => sim.value(port),
            Engine::Flat(sim) => sim.value(port),
        }
    }

    /// How far the simulation has come.
    pub fn phase(&self) -> Phase
        ensures { result ≡ self.now.phase }
    {
        match &self.engine {
            Engine::Plain(sim) => sim.phase(),
            Engine::Flat(sim) => sim.phase(),
        }
    }

    /// Whether it goes by steps over slots, and not as the plain simulator does.
    pub fn goes_by_steps(&self) -> bool {
        matches!(self.engine, Engine::Flat(_))
    }
}
