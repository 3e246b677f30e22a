//! The simulation of a netlist by a program.
ghost use Rattle.std.specs.Prelude.{◌≡◌, ◌+◌, ◌<◌, ◌≤◌, true, [], length, map, slice_get, Some, Err, IfOk, All};
ghost use Rattle.hw_bits.specs.Values.{values_of, widths_of};
ghost use Rattle.hw_bits.specs.declared.bits.Bits.{Bits};
ghost use Rattle.hw_prims.specs.Meaning.{opening_state};
ghost use Rattle.hw_prims.specs.Memory.{word_count, word_width};
ghost use Rattle.hw_prims.specs.Table.{IsMade, inputs_of, pin_widths};
ghost use Rattle.net_core.specs.Netlist.{netlist_of};
ghost use Rattle.net_core.specs.Numbers.{HasNumbers};
ghost use Rattle.net_core.specs.Rules.{IsValid};
ghost use Rattle.net_core.specs.Table.{IsTableOf};
ghost use Rattle.net_core.specs.declared.table.PortInfo.{PortInfo};
ghost use Rattle.net_sim.specs.Layout.{port_widths};
ghost use Rattle.net_sim.specs.PortOrder.{IsPortOrderOf};
ghost use Rattle.net_sim.specs.Shown.{shown_cells, HasWord, HasWordWidth};
ghost use Rattle.net_sim.specs.Sim.{IsNewSim, IsLoadOfSim, IsWordOfSim, IsWordCountOfSim, IsRowOfSim, IsEdgeOfSim, IfRunning, IfStopped, IfEvaluated, IfNotEvaluated, conflict_in};
ghost use Rattle.net_sim.specs.declared.cells.CellPorts.{CellPorts};
ghost use Rattle.net_row.specs.Programs.{AreFit, IsRunOf, program_at};
ghost use Rattle.net_steps.specs.Others.{AreNarrow};
ghost use Rattle.net_steps.specs.declared.other.Other.{Other as OtherCell};
ghost use Rattle.net_row.specs.Flats.{AreOthers, AreOpeningOthers, HasShown, IsShownAs, IsLoadedOther, AreOpened, IsOther};
ghost use Rattle.net_row.specs.Kinds.{kinds_of};

use crate::cases::compile_all;
use crate::compile::number;
use crate::kinds::Kind;
use crate::programs::Programs;
use hw_bits::Bits;
use hw_prims::Prim;
use net_core::{Net, Table};
use net_sim::{CellPorts, Conflict, Phase, PortOrder, cell_ports, shown_cells};
use net_steps::{HeldState, Other, ProgramEnd, find_conflict, step_kept, step_others};
use std::alloc::Global;
use std::marker::Model;

/// The simulation of a netlist by a program. Its ports are at most 64 bits wide.
#[derive(Drop)]
pub struct Flat<'a> {
    net: &'a Net,
    table: &'a Table,
    kinds: Vec<Kind>,
    programs: Programs,
    /// The place of the program that the last row went by.
    current: usize,
    others: Vec<Other>,
    shown: Vec<usize>,
    kept: Vec<u64>,
    slots: Vec<u64>,
    phase: Phase,
}

impl<'a> Model for Flat<'a> {
    ghost use Rattle.net_core.specs.contracts.net.Net as net_type;
    ghost use Rattle.net_sim.specs.Sim.{SimValue};
    ghost use Rattle.std.specs.Coded.{codes};

    ghost Value = { SimValue };

    ghost coded = { Prim.hlevel (codes, net_type.the_row.coded) };

    ghost use Rattle.net_row.specs.Flats.{flat_value, IsFlat};

    ghost view = { flat_value };

    ghost invariant = { IsFlat };
}

impl<'a> Flat<'a> {
    /// A simulation of the netlist, whose table and order these are: each cell in its opening state.
    pub fn new(
        alloc: Global,
        net: &'a Net,
        table: &'a Table,
        order: &PortOrder,
    ) -> Result<Flat<'a>, ProgramEnd>
        requires valid { IsValid (netlist_of net.now) }
        requires numbers { HasNumbers net.now }
        requires table { IsTableOf (netlist_of net.now) table.now }
        requires order { IsPortOrderOf (netlist_of net.now) order.now }
        ensures { IfOk result (IsNewSim net.now) }
    {
        if !is_narrow(table) {
            return Err(ProgramEnd::Unfit);
        }
        let cells = cell_ports(alloc, net, table.names.len())?;
        let numbered = number(alloc, net, table, order, cells.as_slice())?;
        let others = others(alloc, cells.as_slice(), numbered.kinds.of_cells.as_slice())?;
        let programs = compile_all(alloc, &numbered, others.as_slice())?;
        let shown = shown_cells(alloc, net)?;
        let kept = vec![in alloc; 0u64; numbered.kinds.kept]?;
        let slots = vec![in alloc; 0u64; programs.room]?;
        Ok(Flat {
            net,
            table,
            kinds: numbered.kinds.of_cells,
            current: programs.cases.len(),
            programs,
            others,
            shown,
            kept,
            slots,
            phase: Phase::Fresh,
        })
    }

    /// Puts a word into a shown memory, before the first row. Takes no memory.
    pub fn load(&mut self, mem: usize, at: usize, word: Bits)
        requires fresh { self.old.phase ≡ Phase.Fresh }
        requires place { HasWord (netlist_of self.old.net) mem at }
        requires width { HasWordWidth (netlist_of self.old.net) mem word.width }
        ensures { IsLoadOfSim self.old mem at word.value self.new }
    {
        let number = shown_number(self.kinds.as_slice(), self.shown.as_slice(), mem);
        load_other(self.others.as_mut_slice(), number, at, word);
    }

    /// The word of a shown memory now, after the last edge. Takes no memory.
    pub fn word(&self, mem: usize, at: usize) -> Bits
        requires { HasWord (netlist_of self.now.net) mem at }
        ensures value { IsWordOfSim self.now mem at result.value }
        ensures width { HasWordWidth (netlist_of self.now.net) mem result.width }
    {
        let number = shown_number(self.kinds.as_slice(), self.shown.as_slice(), mem);
        self.others[number].state.word(at)
    }

    /// The number of words of a shown memory. Takes no memory.
    pub fn word_count(&self, mem: usize) -> usize
        requires { mem < length (shown_cells (netlist_of self.now.net)) }
        ensures { IsWordCountOfSim self.now mem result }
    {
        let number = shown_number(self.kinds.as_slice(), self.shown.as_slice(), mem);
        self.others[number].state.word_count()
    }

    /// Evaluates a row from the values of the netlist's inputs. Takes no memory.
    pub fn row(&mut self, inputs: &[Bits]) -> Result<(), Conflict>
        requires { widths_of inputs.now ≡ map (λ p. p.width) (netlist_of self.old.net).ins }
        ensures running { IfRunning self.old.phase
            (IsRowOfSim self.old (values_of inputs.now) self.new (conflict_in result)) }
        ensures stopped { IfStopped self.old.phase
            (λ port. (self.new ≡ self.old) × (result ≡ Err (record { port = port }))) }
    {
        if let Phase::Stopped(port) = self.phase {
            return Err(Conflict { port });
        }
        self.current = fill(
            &self.programs,
            self.others.as_slice(),
            self.kept.as_slice(),
            inputs,
            self.slots.as_mut_slice(),
        );
        match find_conflict(
            &self.table.names,
            self.programs.at(self.current).clashes.as_slice(),
            self.slots.as_slice(),
        ) {
            None => {
                self.phase = Phase::Evaluated;
                Ok(())
            }
            Some(port) => {
                self.phase = Phase::Stopped(port);
                Err(Conflict { port })
            }
        }
    }

    /// The edge that ends the row that was evaluated. Takes no memory.
    pub fn edge(&mut self)
        ensures evaluated { IfEvaluated self.old.phase (IsEdgeOfSim self.old self.new) }
        ensures others { IfNotEvaluated self.old.phase (self.new ≡ self.old) }
    {
        if let Phase::Evaluated = self.phase {
            let program = self.programs.at(self.current);
            step_kept(
                program.next.as_slice(),
                self.slots.as_slice(),
                self.kept.as_mut_slice(),
            );
            step_others(
                program.places.as_slice(),
                self.slots.as_slice(),
                self.others.as_mut_slice(),
            );
            self.phase = Phase::Stepped;
        }
    }

    /// The value of a port in the last row that was evaluated; 0 before the first. Takes no memory.
    pub fn value(&self, port: usize) -> Bits
        requires { port < length self.now.values }
        ensures value { slice_get self.now.values port ≡ Some result.value }
        ensures width { slice_get (port_widths (netlist_of self.now.net)) port ≡ Some result.width }
    {
        let slot = self.programs.at(self.current).ports[port] as usize;
        Bits::wrap(self.slots[slot] as u128, self.table.ports[port].width)
    }

    /// How far the simulation has come.
    pub fn phase(&self) -> Phase
        ensures { result ≡ self.now.phase }
    {
        self.phase
    }
}

/// Whether each port fits a slot.
fn is_narrow(table: &Table) -> bool
    ensures { result ≡ true → All (λ (port : PortInfo). port.width ≤ 64) table.now.ports.items }
{
    table.ports.iter().all(|port| port.width <= 64)
}

/// The number of a shown memory among the cells that keep their states by themselves.
fn shown_number(kinds: &[Kind], shown: &[usize], mem: usize) -> usize
    requires { HasShown kinds.now shown.now mem }
    ensures { IsShownAs kinds.now shown.now mem result }
{
    match kinds[shown[mem]] {
        Kind::Other(number) => number,
        _ => unreachable!(),
    }
}

/// Puts a word into the memory with this number.
fn load_other(others: &mut [Other], number: usize, at: usize, word: Bits)
    requires number { number < length others.old }
    requires at { (other : OtherCell) → slice_get others.old number ≡ Some other → at < word_count other.state.prim }
    requires width { (other : OtherCell) → slice_get others.old number ≡ Some other → word.width ≡ word_width other.state.prim }
    ensures { IsLoadedOther number at word.value others.old others.new }
{
    let other = &mut others[number];
    other.state.load(at, word);
}

/// Fills the slots of a row: with what is kept, with the inputs, and with what the steps of a program make. It tells which.
fn fill(
    programs: &Programs,
    others: &[Other],
    kept: &[u64],
    inputs: &[Bits],
    slots: &mut [u64],
) -> usize
    requires room { programs.now.room ≡ length slots.old }
    requires opening { length kept.now + length inputs.now ≤ length slots.old }
    requires inputs { All (λ (input : Bits). input.width ≤ 64) inputs.now }
    requires fit { AreFit (length kept.now + length inputs.now) others.now programs.now }
    requires others { AreNarrow others.now }
    ensures opened { AreOpened kept.now (values_of inputs.now) slots.new }
    ensures made { IsRunOf (length kept.now + length inputs.now) (program_at programs.now result) others.now slots.new }
{
    open(slots, kept, inputs);
    programs.run(kept.len() + inputs.len(), others, slots)
}

/// Puts what is kept and the inputs into their slots.
fn open(slots: &mut [u64], kept: &[u64], inputs: &[Bits])
    requires room { length kept.now + length inputs.now ≤ length slots.old }
    requires inputs { All (λ (input : Bits). input.width ≤ 64) inputs.now }
    ensures { AreOpened kept.now (values_of inputs.now) slots.new }
{
    slots[..kept.len()].copy_from_slice(kept);
    for (number, input) in inputs.iter().enumerate() {
        slots[kept.len() + number] = input.value() as u64;
    }
}

/// The cells that keep their states by themselves, in their opening states.
fn others(alloc: Global, cells: &[CellPorts], kinds: &[Kind]) -> Result<Vec<Other>, ProgramEnd>
    requires made { All (λ (cell : CellPorts). IsMade cell.prim) cells.now }
    requires kinds { kinds.now ≡ kinds_of cells.now }
    ensures are { IfOk result (λ others. AreOthers cells.now others.items) }
    ensures opening { IfOk result (λ others. AreOpeningOthers others.items) }
{
    let mut others = Vec::new(alloc);
    for (number, cell) in cells.iter().enumerate() {
        if let Kind::Other(_) = kinds[number] {
            let other = other_of(alloc, *cell)?;
            others.push(other)?;
        }
    }
    Ok(others)
}

/// A cell that keeps its state by itself, in its opening state.
fn other_of(alloc: Global, cell: CellPorts) -> Result<Other, ProgramEnd>
    requires { IsMade cell.prim }
    ensures is { IfOk result (IsOther cell) }
    ensures opening { IfOk result (λ other. other.state.state ≡ opening_state other.state.prim []) }
{
    let widths = input_widths(alloc, cell.prim)?;
    let state = HeldState::new(alloc, cell.prim)?;
    Ok(Other {
        state,
        widths,
        outputs: cell.prim.outputs(),
    })
}

/// The widths of a cell's inputs, in bits.
fn input_widths(alloc: Global, prim: Prim) -> Result<Vec<u8>, ProgramEnd>
    requires { IsMade prim }
    ensures { IfOk result (λ widths. widths.items ≡ pin_widths (inputs_of prim)) }
{
    let mut widths = Vec::new(alloc);
    for number in 0..prim.inputs() {
        let Some(port) = prim.port(number) else {
            return Err(ProgramEnd::Unfit);
        };
        widths.push(port.width)?;
    }
    Ok(widths)
}
