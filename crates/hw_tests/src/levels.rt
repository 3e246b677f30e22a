//! Levels of the ports of one cell that wires go through twice, told by hand.
ghost use Rattle.std.specs.Prelude.{◌<◌, All, IsTrue};

use hw_bits::Memory;
use hw_graph::Entry;
use hw_levels::{CellPort, levels_of};
use std::alloc::Global;
use std::test::Fail;

/// The ports `i1`, `o1`, `i2` and `o2` of a cell, by their levels in its component: there `o1` reads `i1`, and `o2` reads both.
const IS_INPUT: [bool; 4] = [true, false, true, false];

/// A wire between two of these ports, the one that reads first; and whether there are levels then.
const WIRES: [((usize, usize), bool); 4] = [
    // From `o1` to `i2`: through the cell and once more.
    ((2, 1), true),
    // From `o2` to `i1`: in a loop.
    ((0, 3), false),
    // From `o1` to `i1`: in a loop.
    ((0, 1), false),
    // From `i1` to `i2`.
    ((2, 0), true),
];

/// The ports of the cell, whose numbers are their levels.
fn ports_of_cell(alloc: Global) -> Result<Vec<CellPort>, Memory> {
    let mut ports = Vec::new(alloc);
    for (node, is_input) in IS_INPUT.iter().enumerate() {
        ports.push(CellPort {
            cell: 0,
            level: node,
            node,
            is_input: *is_input,
        })?;
    }
    Ok(ports)
}

/// Whether all ports are below a count.
fn are_below(ports: &[CellPort], count: usize) -> bool
    ensures { IsTrue result → All (λ port. port.node < count) ports.now }
{
    ports.iter().all(|port| port.node < count)
}

/// Whether levels are found where one port of the cell reads another.
fn has_levels(alloc: Global, reads: (usize, usize)) -> Result<bool, Memory> {
    let ports = ports_of_cell(alloc)?;
    let (key, value) = reads;
    if key >= 4 || value >= 4 || !are_below(&ports, 4) {
        return Err(Memory);
    }
    let entries = vec![in alloc; Entry { key, value }; 1]?;
    let found = levels_of(alloc, entries, ports, 4)?;
    Ok(found.is_some())
}

#[test]
fn levels_are_found_where_wires_go_through_a_cell_twice(rt: HostRuntime) -> Result<(), Fail> {
    for (reads, told) in WIRES {
        assert_eq!(rt; has_levels(rt.alloc(), reads)?, told, "{reads:?}");
    }
    Ok(())
}
