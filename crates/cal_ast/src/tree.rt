//! The tree of a Calyx text. Each name is a number of the design's names.
use hw_names::{NameId, Names};
use net_core::{Guard, Src};

/// A port of a component: its own, or one of a cell of it.
#[derive(Clone, Copy, Debug, PartialEq, Eq)]
pub struct CalPort {
    pub cell: Option<NameId>,
    pub port: NameId,
}

/// A port of a signature, with its width in bits.
#[derive(Clone, Copy, Debug, PartialEq, Eq)]
pub struct CalPin {
    pub name: NameId,
    pub width: u128,
}

/// A cell of a primitive or of a component. The words of an external memory of the top component are loaded and printed by a run.
#[derive(Drop)]
pub struct CalCell {
    pub name: NameId,
    pub made: NameId,
    pub params: Vec<u128>,
    pub external: bool,
}

/// A guarded assignment: `dst = guard ? src;`.
#[derive(Drop)]
pub struct Assign {
    pub dst: CalPort,
    pub guard: Option<Guard<CalPort>>,
    pub src: Src<CalPort>,
}

/// A done line of a group: `of[done] = guard ? src;`.
#[derive(Drop)]
pub struct DoneSet {
    pub of: NameId,
    pub guard: Option<Guard<CalPort>>,
    pub src: Src<CalPort>,
}

/// A group of assignments, which act where control says so.
#[derive(Drop)]
pub struct Group {
    pub name: NameId,
    pub comb: bool,
    pub sets: Vec<Assign>,
    pub dones: Vec<DoneSet>,
}

/// What an `invoke` gives an input of its cell.
#[derive(Clone, Copy, Debug, PartialEq, Eq)]
pub struct InBind {
    pub port: NameId,
    pub src: Src<CalPort>,
}

/// Where an `invoke` puts an output of its cell.
#[derive(Clone, Copy, Debug, PartialEq, Eq)]
pub struct OutBind {
    pub port: NameId,
    pub dst: CalPort,
}

/// A control statement.
#[derive(Drop)]
pub enum Control {
    /// A group that is not combinational acts until it is done.
    Enable(NameId),
    /// One statement after another.
    Seq(Vec<Control>),
    /// All statements at once, until the last has ended.
    Par(Vec<Control>),
    /// One of two statements, as a port says, while a combinational group acts.
    If {
        port: CalPort,
        by: Option<NameId>,
        yes: Box<Control>,
        no: Box<Control>,
    },
    /// A statement again and again, as long as a port says so.
    While {
        port: CalPort,
        by: Option<NameId>,
        body: Box<Control>,
    },
    /// A cell is started with inputs, until it is done.
    Invoke {
        cell: NameId,
        ins: Vec<InBind>,
        outs: Vec<OutBind>,
    },
}

/// The control section of a component.
#[derive(Drop)]
pub enum ControlPart {
    /// There is none.
    Absent,
    /// It has nothing in it.
    Empty,
    Body(Control),
}

/// A component.
#[derive(Drop)]
pub struct CalComp {
    pub name: NameId,
    pub ins: Vec<CalPin>,
    pub outs: Vec<CalPin>,
    pub cells: Vec<CalCell>,
    pub groups: Vec<Group>,
    /// The continuous assignments, which always act.
    pub sets: Vec<Assign>,
    pub control: ControlPart,
}

/// A design: its components in text order.
#[derive(Drop)]
pub struct CalDesign {
    pub names: Names,
    pub comps: Vec<CalComp>,
}
