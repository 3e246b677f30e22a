//! The tree of a Filament text. Each name is a number of the design's names.
use hw_names::{NameId, Names};

/// An event, and so many rows after it.
#[derive(Clone, Copy, Debug, PartialEq, Eq)]
pub struct Time {
    pub event: NameId,
    pub plus: u128,
}

/// An event of a component, and how many rows its starts are apart at least.
#[derive(Clone, Copy, Debug, PartialEq, Eq)]
pub struct EventDef {
    pub name: NameId,
    pub delay: u128,
}

/// The interface port of an event, which is 1 exactly in the rows in which the event starts.
#[derive(Clone, Copy, Debug, PartialEq, Eq)]
pub struct GoPort {
    pub event: NameId,
    pub name: NameId,
    pub width: u128,
}

/// A data port, with its availability interval `[from, to)` and its width in bits.
#[derive(Clone, Copy, Debug, PartialEq, Eq)]
pub struct FilPort {
    pub from: Time,
    pub to: Time,
    pub name: NameId,
    pub width: u128,
}

/// A value: a data input, an output of an invocation, or a literal of a width in bits.
#[derive(Clone, Copy, Debug, PartialEq, Eq)]
pub enum Value {
    Port(NameId),
    Out(NameId, NameId),
    Lit { width: u128, value: u128 },
}

/// A statement of a component's body.
#[derive(Drop)]
pub enum Stmt {
    /// An instance: `name := new comp[params];`.
    New {
        name: NameId,
        comp: NameId,
        params: Vec<u128>,
    },
    /// An invocation of an instance: `name := inst<at>(args);`.
    Call {
        name: NameId,
        inst: NameId,
        at: Vec<Time>,
        args: Vec<Value>,
    },
    /// An instance and its invocation, of one name: `name := new comp[params]<at>(args);`.
    Both {
        name: NameId,
        comp: NameId,
        params: Vec<u128>,
        at: Vec<Time>,
        args: Vec<Value>,
    },
    /// A connection of an output: `dst = value;`.
    Set {
        dst: NameId,
        value: Value,
    },
}

/// A component. Interface ports and data inputs are two lists.
#[derive(Drop)]
pub struct FilComp {
    pub name: NameId,
    pub events: Vec<EventDef>,
    pub gos: Vec<GoPort>,
    pub ins: Vec<FilPort>,
    pub outs: Vec<FilPort>,
    pub body: Vec<Stmt>,
}

/// A design: its components in text order.
#[derive(Drop)]
pub struct FilDesign {
    pub names: Names,
    pub comps: Vec<FilComp>,
}
