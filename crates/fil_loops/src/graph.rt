//! A graph of ports: which reads which within a row.
ghost use Rattle.std.specs.Prelude.{◌<◌, All, length};

use crate::ports::Ports;
use hw_bits::Memory;
use hw_graph::Entry;
use hw_names::Names;
use std::alloc::Global;

/// Which port reads which within a row.
#[derive(Drop)]
pub struct PortGraph<'a> {
    /// The ports by their numbers.
    pub ports: Ports<'a>,
    /// An entry for each port and each port that it reads, by their numbers.
    pub entries: Vec<Entry>,
    pub ghost in_range: { All (λ entry. (entry.key < length ports.names) × (entry.value < length ports.names)) entries.items },
}

impl<'a> PortGraph<'a> {
    ghost use Rattle.std.specs.Prelude.{◌≡◌, ◌<◌, [], ◌∷◌, ◌++◌, Some, Contains, length, slice_get, IfOk, OnOk};
    ghost use Rattle.hw_names.specs.Name.{Text, dotted};
    ghost use Rattle.fil_loops.specs.inside.PortGraph.{Adds, IsPair, NoPair};

    /// A graph of no ports, of a component with these instances.
    pub fn new(alloc: Global, instances: &'a Names) -> PortGraph<'a>
        ensures ports { result.ports ≡ record { instances = instances.now; names = [] } }
        ensures entries { result.entries.items ≡ [] }
    {
        PortGraph {
            ports: Ports::new(alloc, instances),
            entries: Vec::new(alloc),
        }
    }

    /// The number of the port of this full name; a new one goes last.
    pub fn named(&mut self, name: &[u8]) -> Result<usize, Memory>
        ensures number { IfOk result (λ n. slice_get self.new.ports.names n ≡ Some name.now) }
        ensures added { ¬ Contains self.old.ports.names name.now
            → OnOk result (self.new.ports.names ≡ self.old.ports.names ++ name.now ∷ []) }
        ensures same { Adds NoPair self.old self.new }
    {
        self.ports.named(name)
    }

    /// The number of the port of this name of an instance; a new one goes last.
    pub fn port(&mut self, instance: usize, port: &[u8]) -> Result<usize, Memory>
        requires { instance < length self.old.ports.instances }
        ensures number { (inst : Text) → slice_get self.old.ports.instances instance ≡ Some inst
            → IfOk result (λ n. slice_get self.new.ports.names n ≡ Some (dotted inst port.now)) }
        ensures within { IfOk result (λ n. n < length self.new.ports.names) }
        ensures same { Adds NoPair self.old self.new }
    {
        self.ports.port(instance, port)
    }

    /// Adds that the port with this number reads the other.
    pub fn add(&mut self, key: usize, value: usize) -> Result<(), Memory>
        requires key { key < length self.old.ports.names }
        requires value { value < length self.old.ports.names }
        ensures ports { self.new.ports ≡ self.old.ports }
        ensures pair { (port other : Text) → slice_get self.old.ports.names key ≡ Some port → slice_get self.old.ports.names value ≡ Some other
            → OnOk result (Adds (IsPair port other) self.old self.new) }
    {
        self.entries.push(Entry { key, value })?;
        Ok(())
    }
}
