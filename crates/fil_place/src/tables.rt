//! What names mean at a place of a component's body, in tables that are looked up by name.

use crate::callee::Callee;
use crate::earlier::Earlier;
use crate::starts::Starts;
use crate::times::Offset;
use hw_names::Names;
use std::alloc::Global;

/// What an instance is made of.
#[derive(Drop)]
pub enum Made {
    /// The earlier component of this number.
    Component(usize),
    /// A primitive with its parameters.
    Primitive(Callee),
}

/// What names mean before a statement.
#[derive(Drop)]
pub struct Tables {
    /// The names of the component's events.
    pub events: Names,
    /// The names of its interface ports, its inputs and its outputs, and then those of the invocations so far.
    pub ports: Names,
    /// The names of the instances so far.
    pub instances: Names,
    /// What each instance is made of.
    pub made: Vec<Made>,
    /// The number of each invocation's instance.
    pub invoked: Vec<usize>,
    /// The times that each invocation gives.
    pub times: Vec<Vec<Offset>>,
    /// The numbers of each instance's invocations, counted from 0.
    pub calls: Vec<Vec<usize>>,
    /// The uses by the invocations so far.
    pub starts: Starts,
    /// The names of the outputs that are connected so far.
    pub connected: Names,
}

impl Tables {
    ghost use Rattle.std.specs.Prelude.{◌≡◌, ℕ, [], None};
    ghost use Rattle.fil_ast.specs.Items.{scope_after};
    ghost use Rattle.fil_ast.specs.Naming.{event_names, port_names};
    ghost use Rattle.fil_ast.specs.Tree.{Component, Design};
    ghost use Rattle.fil_place.specs.Starts.{use_at};
    ghost use Rattle.fil_place.specs.Tables.{Shows, ShowsEarlier};
    ghost use Rattle.fil_place.specs.declared.earlier.Earlier.{Earlier};

    /// What names mean before the first statement of a component whose events and ports have these names.
    pub fn new(alloc: Global, events: Names, ports: Names) -> Tables
        ensures shows { (earlier : Earlier) (comps : Design) (c : Component) → ShowsEarlier earlier comps
            → events ≡ event_names c → ports ≡ port_names c → Shows earlier result (scope_after comps c []) }
        ensures unused { (instance event start : ℕ) → use_at result.starts instance event start ≡ None }
        ensures connected { result.connected ≡ [] }
    {
        let instances = events.beside();
        let connected = events.beside();
        Tables {
            events,
            ports,
            instances,
            made: Vec::new(alloc),
            invoked: Vec::new(alloc),
            times: Vec::new(alloc),
            calls: Vec::new(alloc),
            starts: Starts::new(alloc),
            connected,
        }
    }
}
