//! Levels of a component's ports.
ghost use Rattle.std.specs.Prelude.{◌≡◌, ◌<◌, ◌≤◌, ◌^◌, ℕ, All, length, IfOk, IfSome, slice_index};
ghost use Rattle.hw_graph.specs.Graph.{AreInRange, HasRead};
ghost use Rattle.hw_levels.specs.Levels.{AreLevels, IsBelow};

use crate::cells::{CellPort, keeps_levels};
use crate::link::link;
use hw_bits::Memory;
use hw_graph::{Entry, Groups, OrderEnd, gather, read_order};
use std::alloc::Global;

/// Levels of so many ports, of which the entries say what each reads within a row, where these are ports of cells that are
/// made of components; or none, where no such levels were found.
pub fn levels_of(
    alloc: Global,
    entries: Vec<Entry>,
    ports: Vec<CellPort>,
    count: usize,
) -> Result<Option<Vec<usize>>, Memory>
    requires entries { All (λ entry. (entry.key < count) × (entry.value < count)) entries.items }
    requires ports { All (λ port. port.node < count) ports.items }
    requires small { count < 2 ^ 32 }
    ensures levels { IfOk result (λ found. IfSome found (λ levels. AreLevels entries.items ports.items levels.items)) }
    ensures all { IfOk result (λ found. IfSome found (λ levels. count ≤ length levels.items)) }
{
    let mut ports = ports;
    ports.sort_unstable();
    let mut entries = entries;
    let all = link(&mut entries, ports.as_slice(), count)?;
    let reads = gather(alloc, entries.as_slice(), all)?;
    let Some(levels) = levels_in(alloc, &reads)? else {
        return Ok(None);
    };
    if keeps_levels(ports.as_slice(), levels.as_slice()) {
        Ok(Some(levels))
    } else {
        Ok(None)
    }
}

/// A level for each port of the graph: its place in an order of them; none where ports go in a loop.
fn levels_in(alloc: Global, reads: &Groups) -> Result<Option<Vec<usize>>, Memory>
    requires { AreInRange reads.now }
    ensures all { IfOk result (λ found. IfSome found (λ levels. length levels.items ≡ length reads.now)) }
    ensures below { IfOk result (λ found. IfSome found (λ levels. (port other : ℕ) → HasRead reads.now port other → IsBelow levels.items other port)) }
{
    match read_order(alloc, reads) {
        Ok(order) => Ok(Some(places_in(alloc, order.as_slice(), reads.len())?)),
        Err(OrderEnd::Loop { ports: _some }) => Ok(None),
        Err(OrderEnd::Memory) => Err(Memory),
    }
}

/// The place of each of so many ports in a list of them, where it stands once in it.
fn places_in(alloc: Global, order: &[usize], count: usize) -> Result<Vec<usize>, Memory>
    requires { All (λ port. port < count) order.now }
    ensures all { IfOk result (λ places. length places.items ≡ count) }
    ensures each { (i : ℕ) → i < length order.now
        → ((j : ℕ) → j < length order.now → slice_index order.now j ≡ slice_index order.now i → j ≡ i)
        → IfOk result (λ places. slice_index places.items (slice_index order.now i) ≡ i) }
{
    let mut places = vec![in alloc; 0; count]?;
    for (place, port) in order.iter().enumerate() {
        places[*port] = place;
    }
    Ok(places)
}
