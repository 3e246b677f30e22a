//! A component with numbers for names.
use hw_bits::Bits;
use hw_prims::Prim;

/// Where a value comes from.
#[derive(Clone, Copy, Debug)]
pub enum Source {
    /// From this place, counted from 0: the component's inputs stand first, then the outputs of its
    /// invocations, in their order.
    Place(usize),
    /// From a literal.
    Literal(Bits),
}

/// What an invocation calls.
#[derive(Clone, Copy, Debug)]
pub enum Callee {
    Primitive(Prim),
    /// The component with this number, counted from 0.
    Component(usize),
}

/// An invocation: its callee, and a source for each of the callee's data inputs.
#[derive(Drop)]
pub struct Call {
    pub callee: Callee,
    pub args: Vec<Source>,
}

/// A component: its invocations in their order, and a source for each of its outputs.
#[derive(Drop)]
pub struct Plan {
    pub calls: Vec<Call>,
    pub outs: Vec<Source>,
}
