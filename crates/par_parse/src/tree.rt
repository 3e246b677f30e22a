//! The tree of a text of Filament with parameters. Each name is a number of the design's names.
use hw_names::{NameId, Names};

/// A number that is worked out where its component is expanded.
#[derive(Drop)]
pub enum Expression {
    /// A number as it is written, below `2^128`.
    Num(u128),
    /// A parameter, or the name of a loop.
    Name(NameId),
    /// Two terms or more. Those after the first are added, or are a `Minus`.
    Sum(Vec<Expression>),
    /// A term of a `Sum` that is taken away from what is before it.
    Minus(Box<Expression>),
    /// Two factors or more.
    Product(Vec<Expression>),
}

/// The name of a port, an instance, an invocation or a value, with its index where it has one: `v` or `v#(i+1)`.
#[derive(Drop)]
pub struct ParamName {
    pub name: NameId,
    pub index: Option<Expression>,
}

/// An event, and so many rows after it.
#[derive(Drop)]
pub struct ParamTime {
    pub event: NameId,
    pub plus: Expression,
}

/// An event of a component, and how many rows its starts are apart at least.
#[derive(Drop)]
pub struct ParamEvent {
    pub name: NameId,
    pub delay: Expression,
}

/// The interface port of an event.
#[derive(Drop)]
pub struct ParamGo {
    pub event: NameId,
    pub name: ParamName,
    pub width: Expression,
}

/// A data port, with its availability interval `[from, to)` and its width in bits.
#[derive(Drop)]
pub struct ParamPort {
    pub from: ParamTime,
    pub to: ParamTime,
    pub name: ParamName,
    pub width: Expression,
}

/// A value: a data input, an output of an invocation, or a literal of a width in bits.
#[derive(Drop)]
pub enum ParamValue {
    Port(ParamName),
    Out(ParamName, ParamName),
    /// A literal as it is written: `8'd255`.
    Lit {
        width: u128,
        value: u128,
    },
    /// A literal whose width and value are worked out: `lit(w, i*i)`.
    Made {
        width: Expression,
        value: Expression,
    },
}

/// A statement of a component's body.
#[derive(Drop)]
pub enum ParamStatement {
    /// An instance: `name := new comp[params];`.
    New {
        name: ParamName,
        comp: NameId,
        params: Vec<Expression>,
    },
    /// An invocation of an instance: `name := inst<at>(args);`.
    Call {
        name: ParamName,
        inst: ParamName,
        at: Vec<ParamTime>,
        args: Vec<ParamValue>,
    },
    /// An instance and its invocation, of one name: `name := new comp[params]<at>(args);`.
    Both {
        name: ParamName,
        comp: NameId,
        params: Vec<Expression>,
        at: Vec<ParamTime>,
        args: Vec<ParamValue>,
    },
    /// A connection of an output: `dst = value;`.
    Set {
        dst: ParamName,
        value: ParamValue,
    },
    /// The body once for each number from `from` up to, and without, `to`: `for name in from..to { body }`.
    For {
        name: NameId,
        from: Expression,
        to: Expression,
        body: Vec<ParamStatement>,
    },
    /// One of two bodies: `if left < right { yes } else { no }`, or with `==` where it is not `less`. The second is empty where
    /// there is no `else`.
    If {
        less: bool,
        left: Expression,
        right: Expression,
        yes: Vec<ParamStatement>,
        no: Vec<ParamStatement>,
    },
}

/// A component. Interface ports and data inputs are two lists.
#[derive(Drop)]
pub struct ParamComponent {
    pub name: NameId,
    pub params: Vec<NameId>,
    pub events: Vec<ParamEvent>,
    pub gos: Vec<ParamGo>,
    pub ins: Vec<ParamPort>,
    pub outs: Vec<ParamPort>,
    pub body: Vec<ParamStatement>,
}

/// A design: its components in text order.
#[derive(Drop)]
pub struct ParamDesign {
    pub names: Names,
    pub comps: Vec<ParamComponent>,
}
