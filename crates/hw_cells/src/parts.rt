//! Cells by the components that they are made of: what ports read through those with few pins is found together.
ghost use Rattle.std.specs.Prelude.{◌≡◌, ℕ, ◌<◌, [], All, Contains, length, map, IfOk, IfSome, OnOk};
ghost use Rattle.hw_graph.specs.Graph.{AreInRange, IsReadOrder};
ghost use Rattle.hw_cells.specs.Cells.{AreOfParts, IsFit};
ghost use Rattle.hw_cells.specs.inside.Parts.{AreByPart, IsAmong, Splits, Takes, cells_at};
ghost use Rattle.hw_cells.specs.declared.cell.Cell.{Cell};

use crate::cell::Cell;
use crate::pairs::{Start, add_pairs, add_starts};
use crate::search::add_searched;
use crate::together::TOGETHER;
use crate::told_pairs::split_told;
use hw_bits::Memory;
use hw_graph::{Entry, Groups, OrderEnd, gather, read_order};
use indexmap::IndexSet;
use std::alloc::Global;

/// Whether pairs of a cell's outputs and inputs take no more room and time than a copy of its graph.
pub fn has_few_pins(cell: &Cell) -> bool {
    let (outputs, inputs) = (cell.outputs.len(), cell.inputs.len());
    outputs <= TOGETHER && outputs.saturating_mul(inputs) <= cell.reads.len()
}

/// For each component the numbers of its cells among the cells of these numbers.
fn by_part(alloc: Global, cells: &[Cell], numbers: &[usize]) -> Result<Groups, Memory>
    requires { All (λ number. number < length cells.now) numbers.now }
    ensures { IfOk result (AreByPart cells.now numbers.now) }
{
    let mut parts = IndexSet::new(alloc);
    let mut entries = Vec::new(alloc);
    for number in numbers {
        let (key, _) = parts.insert_full(cells[*number].part)?;
        entries.push(Entry {
            key,
            value: *number,
        })?;
    }
    gather(alloc, entries.as_slice(), parts.len())
}

/// An order of the graph's nodes, each after all that it reads; none where it has a loop.
pub fn order_of(alloc: Global, reads: &Groups) -> Result<Option<Vec<usize>>, Memory>
    requires { AreInRange reads.now }
    ensures { IfOk result (λ found. IfSome found (λ order. IsReadOrder reads.now order.items)) }
{
    match read_order(alloc, reads) {
        Ok(order) => Ok(Some(order)),
        Err(OrderEnd::Loop { ports: _some }) => Ok(None),
        Err(OrderEnd::Memory) => Err(Memory),
    }
}

/// Which ports read one another, and the numbers of the cells of which the entries do not tell.
#[derive(Drop)]
pub struct Split {
    pub entries: Vec<Entry>,
    pub left: Vec<usize>,
}

/// The starts of those of the cells of these numbers that have few pins; the others are left.
fn take<'c>(
    alloc: Global,
    left: &mut Vec<usize>,
    cells: &'c [Cell],
    numbers: &[usize],
) -> Result<Vec<Start<'c>>, Memory>
    requires { All (λ number. number < length cells.now) numbers.now }
    ensures takes { IfOk result (λ starts. Takes cells.now numbers.now starts.items (cells_at cells.now left.old.items) (cells_at cells.now left.new.items)) }
    ensures within { All (λ number. number < length cells.now) left.old.items → OnOk result (All (λ number. number < length cells.now) left.new.items) }
{
    let mut starts = Vec::new(alloc);
    for number in numbers {
        let cell = &cells[*number];
        if has_few_pins(cell) {
            add_starts(&mut starts, cell)?;
        } else {
            left.push(*number)?;
        }
    }
    Ok(starts)
}

/// Adds what is read through those of the cells of these numbers, all of one component, that have few pins. The others are left.
fn add_part(
    alloc: Global,
    split: &mut Split,
    cells: &[Cell],
    numbers: &[usize],
) -> Result<(), Memory>
    requires within { All (λ number. number < length cells.now) numbers.now }
    requires fit { (ports : ℕ) × All (IsFit ports) cells.now }
    requires same { (cell other : Cell) → IsAmong cells.now numbers.now cell → IsAmong cells.now numbers.now other → cell.reads.now ≡ other.reads.now }
    ensures splits { OnOk result (Splits cells.now (IsAmong cells.now numbers.now) split.old.entries.items split.new.entries.items
        (cells_at cells.now split.old.left.items) (cells_at cells.now split.new.left.items)) }
    ensures within { All (λ number. number < length cells.now) split.old.left.items → OnOk result (All (λ number. number < length cells.now) split.new.left.items) }
{
    let starts = take(alloc, &mut split.left, cells, numbers)?;
    if starts.is_empty() {
        return Ok(());
    }
    let reads = cells[numbers[0]].reads;
    if add_searched(alloc, &mut split.entries, reads, &starts)? {
        return Ok(());
    }
    match order_of(alloc, reads)? {
        Some(order) => add_pairs(alloc, &mut split.entries, reads, &order, &starts),
        None => Ok(split.left.extend_from_slice(numbers)?),
    }
}

/// Adds to the entries what is read through cells that were told of, and through others with few pins, component by component. The
/// other cells are left.
pub fn split_cells(alloc: Global, mut entries: Vec<Entry>, cells: &[Cell]) -> Result<Split, Memory>
    requires fit { (ports : ℕ) × All (IsFit ports) cells.now }
    requires parts { AreOfParts cells.now }
    ensures splits { IfOk result (λ split. Splits cells.now (Contains cells.now) entries.items split.entries.items [] (cells_at cells.now split.left.items)) }
    ensures within { IfOk result (λ split. All (λ number. number < length cells.now) split.left.items) }
{
    let untold = split_told(alloc, &mut entries, cells)?;
    let parts = by_part(alloc, cells, &untold)?;
    let mut split = Split {
        entries,
        left: Vec::new(alloc),
    };
    for part in 0..parts.len() {
        add_part(alloc, &mut split, cells, parts.get(part))?;
    }
    Ok(split)
}
