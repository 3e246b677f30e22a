//! A graph of the ports of a component, and of the holes of its groups: which reads which within a row.
//!
//! Each port that is assigned in a group reads the group's hole, and the hole reads what the group's done lines read, and
//! the component's own `go`. So a group has as many reads as it has lines.
ghost use Rattle.std.specs.Prelude.{◌<◌, All, length};

use crate::ports::{Port, Ports};
use hw_bits::Memory;
use hw_graph::Entry;
use hw_names::Names;
use std::alloc::Global;

/// The hole of a group: its number in the graph, and the number of the group.
#[derive(Clone, Copy, Debug)]
pub struct Hole {
    pub node: usize,
    pub group: u64,
}

/// Which port or hole of a component reads which within a row.
#[derive(Drop)]
pub struct WireGraph<'a> {
    /// What its lists take memory from.
    pub alloc: Global,
    /// The ports and holes by their numbers.
    pub ports: Ports<'a>,
    /// An entry for each port or hole and each that it reads, by their numbers.
    pub entries: Vec<Entry>,
    /// How many of them are holes.
    pub holes: u64,
    pub ghost in_range: { All (λ entry. (entry.key < length ports.keys) × (entry.value < length ports.keys)) entries.items },
}

impl<'a> WireGraph<'a> {
    ghost use Rattle.std.specs.Prelude.{◌≡◌, ◌+◌, ◌<◌, [], ◌∷◌, ◌++◌, All, length, Contains, IfOk, OnOk};
    ghost use Rattle.cal_wires.specs.Nodes.{APort, AreNumbers, Node, key_of, port_by};
    ghost use Rattle.cal_wires.specs.WireGraphs.{Adds, Grows, HasHole, HasNumber, IsPair, NoPair};

    /// A graph of no ports, where names are those of the design.
    pub fn new(alloc: Global, names: &'a Names) -> WireGraph<'a>
        ensures names { result.ports.names ≡ names.now }
        ensures keys { result.ports.keys ≡ [] }
        ensures entries { result.entries.items ≡ [] }
        ensures holes { result.holes ≡ 0 }
    {
        WireGraph {
            alloc,
            ports: Ports::new(alloc, names),
            entries: Vec::new(alloc),
            holes: 0,
        }
    }

    /// The number of a port; a new one goes last.
    pub fn port(&mut self, port: Port) -> Result<usize, Memory>
        requires { AreNumbers self.old.ports.names port }
        ensures number { IfOk result (HasNumber self.new (APort (port_by self.old.ports.names port.entry))) }
        ensures added { ¬ Contains self.old.ports.keys (key_of (APort (port_by self.old.ports.names port.entry)))
            → OnOk result (self.new.ports.keys ≡ self.old.ports.keys ++ key_of (APort (port_by self.old.ports.names port.entry)) ∷ []) }
        ensures grows { Grows NoPair self.old self.new }
    {
        self.ports.port(port)
    }

    /// A new hole.
    pub fn hole(&mut self) -> Result<Hole, Memory>
        ensures hole { IfOk result (HasHole self.new) }
        ensures group { IfOk result (λ hole. hole.group ≡ self.old.holes) }
        ensures adds { OnOk result (Adds NoPair self.old self.new) }
        ensures holes { OnOk result (self.new.holes ≡ self.old.holes + 1) }
    {
        let group = self.holes;
        if group == u64::MAX {
            return Err(Memory);
        }
        self.holes = group + 1;
        let node = self.ports.hole(group)?;
        Ok(Hole { node, group })
    }

    /// Adds that the one reads the other, by their numbers.
    pub fn add(&mut self, key: usize, value: usize) -> Result<(), Memory>
        requires key { key < length self.old.ports.keys }
        requires value { value < length self.old.ports.keys }
        ensures pair { (node other : Node) → HasNumber self.old node key → HasNumber self.old other value
            → OnOk result (Grows (IsPair node other) self.old self.new) }
        ensures ports { self.new.ports ≡ self.old.ports }
    {
        self.entries.push(Entry { key, value })?;
        Ok(())
    }
}
