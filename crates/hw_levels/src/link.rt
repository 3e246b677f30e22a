//! Nodes that have the levels of a holder keep those of its cells.
ghost use Rattle.std.specs.Prelude.{◌≡◌, ◌+◌, ◌<◌, ◌≤◌, ◌^◌, All, length, IfOk, OnOk, IfSome};
ghost use Rattle.std.specs.Option.{ForSome};
ghost use Rattle.hw_levels.specs.inside.Link.{AreBelow, AreKept};

use crate::cells::CellPort;
use hw_bits::Memory;
use hw_graph::Entry;

/// The node of the last input so far, and its cell.
#[derive(Clone, Copy)]
struct Last {
    cell: usize,
    node: usize,
}

/// A graph that gets more nodes: how many it has, and the last one.
#[derive(Drop)]
struct Chains {
    count: usize,
    last: Option<Last>,
    ghost in_range: { ForSome last (λ last. last.node < count) },
}

impl Chains {
    /// The node of the last input so far of this cell.
    fn node_of(&self, cell: usize) -> Option<usize>
        ensures { IfSome result (λ node. node < self.now.count) }
    {
        match self.last {
            Some(last) if last.cell == cell => Some(last.node),
            _ => None,
        }
    }

    /// Adds a node for an input, which reads it and the node before it in its cell.
    fn add_input(&mut self, entries: &mut Vec<Entry>, port: CellPort) -> Result<(), Memory>
        requires port { port.node < self.old.count }
        requires entries { AreBelow self.old.count entries.old.items }
        requires room { self.old.count + 1 < 2 ^ 64 }
        ensures count { OnOk result (self.new.count ≡ self.old.count + 1) }
        ensures in_range { OnOk result (AreBelow self.new.count entries.new.items) }
        ensures kept { OnOk result (AreKept entries.old.items entries.new.items) }
    {
        let node = self.count;
        if let Some(value) = self.node_of(port.cell) {
            entries.push(Entry { key: node, value })?;
        }
        entries.push(Entry {
            key: node,
            value: port.node,
        })?;
        self.last = Some(Last {
            cell: port.cell,
            node,
        });
        self.count = node + 1;
        Ok(())
    }

    /// Adds that an output reads the node of the last input before it in its cell.
    fn add_output(&self, entries: &mut Vec<Entry>, port: CellPort) -> Result<(), Memory>
        requires port { port.node < self.now.count }
        requires entries { AreBelow self.now.count entries.old.items }
        ensures in_range { OnOk result (AreBelow self.now.count entries.new.items) }
        ensures kept { OnOk result (AreKept entries.old.items entries.new.items) }
    {
        if let Some(value) = self.node_of(port.cell) {
            entries.push(Entry {
                key: port.node,
                value,
            })?;
        }
        Ok(())
    }
}

/// Adds to a graph of so many ports what makes its levels keep those of these ports, which stand cell by cell, and in each by
/// their levels in its component: a node for each input, which reads it and the node before it in its cell; and each
/// output reads the last of these before it. The answer is the count of ports and nodes.
pub(crate) fn link(
    entries: &mut Vec<Entry>,
    ports: &[CellPort],
    count: usize,
) -> Result<usize, Memory>
    requires ports { All (λ port. port.node < count) ports.now }
    requires entries { AreBelow count entries.old.items }
    requires small { count < 2 ^ 32 }
    ensures kept { OnOk result (AreKept entries.old.items entries.new.items) }
    ensures in_range { IfOk result (λ all. AreBelow all entries.new.items) }
    ensures more { IfOk result (λ all. (count ≤ all) × (all ≤ count + length ports.now)) }
{
    let mut chains = Chains { count, last: None };
    for port in ports {
        if port.is_input {
            chains.add_input(entries, *port)?;
        } else {
            chains.add_output(entries, *port)?;
        }
    }
    Ok(chains.count)
}
