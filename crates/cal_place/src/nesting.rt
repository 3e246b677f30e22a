//! Which components have cells of which, and which of them are parts of themselves.
ghost use Rattle.std.specs.Prelude.{◌≡◌, ◌<◌, ◌++◌, false, length, map, All, IfOk, OnOk};
ghost use Rattle.hw_graph.specs.Graph.{AreInRange};
ghost use Rattle.cal_ast.specs.Tree.{Design};
ghost use Rattle.cal_place.specs.inside.Entries.{AreNumerals, IsOrderOf, holder_read, part_in, part_read, parts_in};
ghost use Rattle.cal_place.specs.Holders.{AreHolders, AreMarks};
ghost use Rattle.cal_place.specs.Nesting.{IsInside, ShowsNesting};
ghost use Rattle.cal_place.specs.Tables.{AreMade};

use crate::prototype::{Prototype, component_of};
use hw_bits::Memory;
use hw_graph::{Entry, Groups, OrderEnd, Reach, gather, order_or_least_loop};
use hw_names::Names;
use std::alloc::Global;

/// Which components of a design have cells of which.
#[derive(Drop)]
pub struct Nesting {
    /// For each component the components that have a cell of it.
    pub holders: Groups,
    /// The components, each after those that it has cells of; or the first in text order that is a part of itself.
    pub order: PartOrder,
}

/// The components, parts first, if there is such an order.
#[derive(Drop)]
pub enum PartOrder {
    /// Each component after those that it has cells of.
    Parts(Vec<usize>),
    /// The first component in text order that is a part of itself.
    Loop(usize),
}

/// Adds an entry for a cell of a component, if it is made of one: the component, and the one that the cell is made of.
fn add_entry(
    reads: &mut Vec<Entry>,
    holders: &mut Vec<Entry>,
    number: usize,
    made: Option<Prototype>,
) -> Result<(), Memory>
    ensures reads { OnOk result (reads.new.items ≡ reads.old.items ++ map (part_read number) (part_in made)) }
    ensures holders { OnOk result (holders.new.items ≡ holders.old.items ++ map (holder_read number) (part_in made)) }
{
    let Some(part) = component_of(made) else {
        return Ok(());
    };
    reads.push(Entry {
        key: number,
        value: part,
    })?;
    holders.push(Entry {
        key: part,
        value: number,
    })?;
    Ok(())
}

/// Adds the entries of the cells of a component.
fn add_entries(
    reads: &mut Vec<Entry>,
    holders: &mut Vec<Entry>,
    number: usize,
    made: &[Option<Prototype>],
) -> Result<(), Memory>
    ensures reads { OnOk result (reads.new.items ≡ reads.old.items ++ map (part_read number) (parts_in made.now)) }
    ensures holders { OnOk result (holders.new.items ≡ holders.old.items ++ map (holder_read number) (parts_in made.now)) }
{
    for cell in made {
        add_entry(reads, holders, number, *cell)?;
    }
    Ok(())
}

/// Texts that stand in the order of their numbers.
fn numerals(alloc: Global, count: usize) -> Result<Names, Memory>
    ensures { IfOk result (AreNumerals count) }
{
    let mut names = Names::new(alloc);
    for number in 0..count {
        if number >= u32::MAX as usize {
            return Err(Memory);
        }
        let _id = names.intern(&(number as u32).to_be_bytes())?;
    }
    Ok(names)
}

/// The order of the components, or the first in text order that lies on a loop.
fn order_of(alloc: Global, reads: &Groups) -> Result<PartOrder, Memory>
    requires { AreInRange reads.now }
    ensures { IfOk result (IsOrderOf reads.now) }
{
    let numerals = numerals(alloc, reads.len())?;
    match order_or_least_loop(alloc, reads, &numerals) {
        Ok(order) => Ok(PartOrder::Parts(order)),
        Err(OrderEnd::Loop { ports }) => Ok(PartOrder::Loop(ports[0])),
        Err(OrderEnd::Memory) => Err(Memory),
    }
}

/// A mark for each component: that of this one is set, and those of the ones that are reached.
fn marks_of(
    alloc: Global,
    count: usize,
    number: usize,
    reached: &[usize],
) -> Result<Vec<bool>, Memory>
    requires number { number < count }
    requires reached { All (λ port. port < count) reached.now }
    ensures { IfOk result (λ marks. AreMarks number reached.now marks.items) }
{
    let mut marks = vec![in alloc; false; count]?;
    marks[number] = true;
    for port in reached {
        marks[*port] = true;
    }
    Ok(marks)
}

impl Nesting {
    /// The nesting of components whose cells are made so.
    pub fn of(alloc: Global, made: &[Vec<Option<Prototype>>]) -> Result<Nesting, Memory>
        requires { (design : Design) × AreMade design made.now }
        ensures { (design : Design) → AreMade design made.now → IfOk result (ShowsNesting design) }
    {
        let mut reads = Vec::new(alloc);
        let mut holders = Vec::new(alloc);
        for (number, cells) in made.iter().enumerate() {
            add_entries(&mut reads, &mut holders, number, cells)?;
        }
        let reads = gather(alloc, reads.as_slice(), made.len())?;
        let holders = gather(alloc, holders.as_slice(), made.len())?;
        let order = order_of(alloc, &reads)?;
        Ok(Nesting { holders, order })
    }

    /// Whether the component may be a part of itself.
    fn may_be_inside(&self, number: usize) -> bool
        ensures { (design : Design) → ShowsNesting design self.now → number < length design → result ≡ false → IsInside design number number → ⊥ }
    {
        match &self.order {
            PartOrder::Parts(_order) => false,
            PartOrder::Loop(first) => number >= *first,
        }
    }

    /// Marks the component and those that reach it, where it may lie on a loop; no mark stands where it does not.
    pub fn holders_of(&self, alloc: Global, number: usize) -> Result<Vec<bool>, Memory>
        requires { (design : Design) × ShowsNesting design self.now × (number < length design) }
        ensures { (design : Design) → ShowsNesting design self.now → IfOk result (λ marks. AreHolders design number marks.items) }
    {
        if !self.may_be_inside(number) {
            return Ok(Vec::new(alloc));
        }
        let mut reach = Reach::new(alloc, &self.holders)?;
        let reached = reach.from(alloc, &self.holders, number)?;
        marks_of(alloc, self.holders.len(), number, &reached)
    }
}
