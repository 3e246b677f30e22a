//! The ports of a netlist that were judged so far.
ghost use Rattle.std.specs.Prelude.{◌≡◌, ◌^◌, ◌<◌, [], ◌∷◌, ◌++◌, length, not, true, false, Ok, option_map, IfOk, OnErr};
ghost use Rattle.net_core.specs.PortList.{port_line};
ghost use Rattle.net_core.specs.Netlist.{Netlist};
ghost use Rattle.net_core.specs.Rules.{is_among, port_named, port_names, ports_of};
ghost use Rattle.net_core.specs.Table.{IsTableOf};

use crate::table::{PortInfo, Table};
use hw_bits::Memory;
use hw_names::{NameId, Names};
use std::alloc::Global;
use std::marker::Model;

/// Which of the netlist's own ports a line makes.
#[derive(Clone, Copy)]
pub enum Side {
    In,
    Out,
    Wire,
}

impl Side {
    ghost use Rattle.std.specs.Prelude.{◌≡◌, [], ◌∷◌};
    ghost use Rattle.hw_prims.specs.Table.{Pin};
    ghost use Rattle.net_core.specs.Judging.{own_line};
    ghost use Rattle.net_core.specs.PortList.{port_line};
    ghost use Rattle.net_core.specs.Rules.{ports_at};

    /// Such a port of this width.
    pub fn port(self, width: u8) -> Port
        ensures { (pin : Pin) → pin.width ≡ width → ports_at (own_line self pin) ≡ port_line pin.name result ∷ [] }
    {
        let (readable, writable) = match self {
            Side::In => (true, false),
            Side::Out => (false, true),
            Side::Wire => (true, true),
        };
        Port {
            width,
            readable,
            writable,
        }
    }
}

/// A port: its width in bits, and whether assignments may read it or drive it.
#[derive(Clone, Copy)]
pub struct Port {
    pub width: u8,
    pub readable: bool,
    pub writable: bool,
}

/// Puts a name last, unless it is there already; says whether it was new. More than `2^32-1` names
/// find no memory.
pub fn add_name(names: &mut Names, name: &[u8]) -> Result<bool, Memory>
    ensures new { IfOk result (λ new. new ≡ not (is_among names.old name.now)) }
    ensures added { result ≡ Ok true → names.new ≡ names.old ++ name.now ∷ [] }
    ensures there { result ≡ Ok false → names.new ≡ names.old }
    ensures err { OnErr result (names.new ≡ names.old) }
{
    let before = names.len();
    if before >= u32::MAX as usize {
        return Err(Memory);
    }
    let _id = names.intern(name)?;
    Ok(names.len() > before)
}

/// Ports with distinct names, in their order.
#[derive(Drop)]
pub struct Ports {
    names: Names,
    ports: Vec<Port>,
}

impl Model for Ports {
    ghost use Rattle.std.specs.Prelude.{List, length, ◌≡◌};
    ghost use Rattle.net_core.specs.PortList.{port_lines};
    ghost use Rattle.net_core.specs.Rules.{PortLine};

    ghost Value = { List PortLine };

    ghost view = { λ p. port_lines p.names p.ports.items };

    ghost invariant = { λ p. length p.names ≡ length p.ports.items };
}

impl Ports {
    /// No ports, of those whose names are made of these.
    pub fn new(alloc: Global, names: &Names) -> Ports
        ensures { result ≡ [] }
    {
        Ports {
            names: names.beside(),
            ports: Vec::new(alloc),
        }
    }

    /// Puts a port last, unless its name is there already; says whether it was new. More than `2^32-1`
    /// ports find no memory.
    pub fn add(&mut self, name: &[u8], port: Port) -> Result<bool, Memory>
        ensures new { IfOk result (λ new. new ≡ not (is_among (port_names self.old) name.now)) }
        ensures added { result ≡ Ok true → self.new ≡ self.old ++ port_line name.now port ∷ [] }
    {
        self.ports.reserve(1)?;
        let new = add_name(&mut self.names, name)?;
        if new {
            self.ports.push(port)?;
        }
        Ok(new)
    }

    /// The port of this name.
    pub fn find(&self, name: &[u8]) -> Option<Port>
        ensures { port_named self.now name.now ≡ option_map (port_line name.now) result }
    {
        let id = self.names.find(name)?;
        Some(self.ports[id.0 as usize])
    }

    /// How many ports there are.
    pub fn len(&self) -> usize
        ensures len { result ≡ length self.now }
        ensures small { result < 2 ^ 32 }
    {
        self.names.len()
    }

    /// The table that lists these ports.
    pub fn into_table(self, alloc: Global) -> Result<Table, Memory>
        ensures { IfOk result (λ table. (n : Netlist) → ports_of n ≡ self → IsTableOf n table) }
    {
        let Ports { names, ports } = self;
        let mut infos = Vec::with_capacity(alloc, names.len())?;
        for (i, port) in ports.iter().enumerate() {
            let name = NameId(i as u32);
            infos.push(PortInfo {
                name,
                width: port.width,
            })?;
        }
        Ok(Table {
            names,
            ports: infos,
        })
    }
}
