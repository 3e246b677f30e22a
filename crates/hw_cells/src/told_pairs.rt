//! Entries between the ports of cells that were told of before.
ghost use Rattle.std.specs.Prelude.{◌≡◌, ◌<◌, ℕ, Contains, All, IfOk, IsFalse, IsTrue, OnOk, [], length, map};
ghost use Rattle.hw_cells.specs.Cells.{IsFit, IsTold, ReadsThrough};
ghost use Rattle.hw_cells.specs.inside.Parts.{Splits, cells_at};
ghost use Rattle.hw_cells.specs.inside.Told.{AddsAll, IsMarked, IsOf};
ghost use Rattle.hw_cells.specs.declared.cell.Pin.{Pin};

use crate::cell::{Cell, Pin};
use crate::parts::has_few_pins;
use crate::together::TOGETHER;
use crate::told::Told;
use hw_bits::Memory;
use hw_graph::Entry;
use std::alloc::Global;

/// Whether these are the nodes of the pins, in order.
fn are_nodes_of(nodes: &[usize], pins: &[Pin]) -> bool
    ensures { IsTrue result → nodes.now ≡ map (λ (pin : Pin). pin.node) pins.now }
{
    if nodes.len() != pins.len() {
        return false;
    }
    for (place, pin) in pins.iter().enumerate() {
        if nodes[place] != pin.node {
            return false;
        }
    }
    true
}

/// Whether it is told of all pins of the cell.
fn is_of(told: &Told, cell: &Cell) -> bool
    ensures { IsTrue result → IsOf told.now cell.now }
{
    told.outputs.len() <= TOGETHER
        && told.words().len() == told.inputs.len()
        && are_nodes_of(&told.outputs, &cell.outputs)
        && are_nodes_of(&told.inputs, &cell.inputs)
}

/// Adds that the output reads those of the inputs whose word has this bit.
fn add_told_of(
    entries: &mut Vec<Entry>,
    output: &Pin,
    bit: usize,
    inputs: &[Pin],
    words: &[u64],
) -> Result<(), Memory>
    requires bit { bit < 64 }
    requires words { length words.now ≡ length inputs.now }
    ensures { OnOk result (AddsAll (IsMarked words.now bit output.now inputs.now) entries.old.items entries.new.items) }
{
    for (place, input) in inputs.iter().enumerate() {
        if words[place] >> bit & 1 == 1 {
            entries.push(Entry {
                key: output.port,
                value: input.port,
            })?;
        }
    }
    Ok(())
}

/// Adds which ports read which through the cell, of whose pins this is told.
fn add_told_pairs(entries: &mut Vec<Entry>, told: &Told, cell: &Cell) -> Result<(), Memory>
    requires of { IsOf told.now cell.now }
    requires told { IsTold cell.now.reads.now told.now }
    ensures { OnOk result (AddsAll (ReadsThrough cell.now) entries.old.items entries.new.items) }
{
    for (bit, output) in cell.outputs.iter().enumerate() {
        add_told_of(entries, output, bit, &cell.inputs, told.words())?;
    }
    Ok(())
}

/// Adds which ports read which through the cell, where they are few pairs and it is told of all its pins; gives whether it does.
fn add_told(entries: &mut Vec<Entry>, cell: &Cell) -> Result<bool, Memory>
    requires fit { (ports : ℕ) × IsFit ports cell.now }
    ensures told { IfOk result (λ told. IsTrue told → AddsAll (ReadsThrough cell.now) entries.old.items entries.new.items) }
    ensures untold { IfOk result (λ told. IsFalse told → entries.new.items ≡ entries.old.items) }
{
    let Some(told) = cell.told else {
        return Ok(false);
    };
    if !has_few_pins(cell) || !is_of(told, cell) {
        return Ok(false);
    }
    add_told_pairs(entries, told, cell)?;
    Ok(true)
}

/// Adds what is read through the cells that were told of. Gives the numbers of the others.
pub fn split_told(
    alloc: Global,
    entries: &mut Vec<Entry>,
    cells: &[Cell],
) -> Result<Vec<usize>, Memory>
    requires fit { (ports : ℕ) × All (IsFit ports) cells.now }
    ensures splits { IfOk result (λ others. Splits cells.now (Contains cells.now) entries.old.items entries.new.items [] (cells_at cells.now others.items)) }
    ensures within { IfOk result (λ others. All (λ number. number < length cells.now) others.items) }
{
    let mut others = Vec::new(alloc);
    for (number, cell) in cells.iter().enumerate() {
        if !add_told(entries, cell)? {
            others.push(number)?;
        }
    }
    Ok(others)
}
