//! The tree of a netlist.
use hw_names::{NameId, Names};

/// Where a value comes from: a port, or a literal of a width in bits.
#[derive(Clone, Copy, Debug, PartialEq, Eq)]
pub enum Src<P> {
    Port(P),
    Lit { width: u128, value: u128 },
}

/// A comparison of two unsigned numbers.
#[derive(Clone, Copy, Debug, PartialEq, Eq)]
pub enum Cmp {
    Eq,
    Neq,
    Lt,
    Gt,
    Le,
    Ge,
}

/// When an assignment drives its destination. `All` and `Any` have two guards or more. Sources are boxed, so that a `!` costs no
/// more than it has to.
pub enum Guard<P> {
    Read(Box<Src<P>>),
    Test(Cmp, Box<Src<P>>, Box<Src<P>>),
    Not(Box<Guard<P>>),
    All(Vec<Guard<P>>),
    Any(Vec<Guard<P>>),
}

impl<P: Drop> Drop for Guard<P> {
    /// Goes over a run of `!` by a loop, since there may be more of them than the stack holds.
    fn drop(mut self) {
        loop {
            match self {
                Guard::Not(negated) => self = Box::into_inner(negated),
                Guard::All(_guards) => return,
                Guard::Any(_guards) => return,
                Guard::Read(_source) => return,
                Guard::Test(_, _left, _right) => return,
            }
        }
    }
}

/// A port of the netlist itself, of a width in bits.
#[derive(Clone, Copy, Debug, PartialEq, Eq)]
pub struct NetPort {
    pub name: NameId,
    pub width: u128,
}

/// A cell of a primitive; `shown` where its memory is loaded and printed by a run.
#[derive(Drop)]
pub struct NetCell {
    pub name: NameId,
    pub prim: NameId,
    pub params: Vec<u128>,
    pub shown: bool,
}

/// A guarded assignment.
#[derive(Drop)]
pub struct NetAssign {
    pub dst: NameId,
    pub guard: Option<Guard<NameId>>,
    pub src: Src<NameId>,
}

/// A netlist. Each name is a number of `names`; the name of a port is its full, dotted name.
#[derive(Drop)]
pub struct Net {
    pub names: Names,
    pub name: NameId,
    pub ins: Vec<NetPort>,
    pub outs: Vec<NetPort>,
    pub wires: Vec<NetPort>,
    pub cells: Vec<NetCell>,
    pub sets: Vec<NetAssign>,
}
