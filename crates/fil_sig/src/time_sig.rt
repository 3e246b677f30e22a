//! Signatures: events with delays and interface ports, and data ports with their intervals.
use hw_names::Word;

/// How many rows two starts of an event are apart at least.
#[derive(Clone, Copy, Debug, PartialEq, Eq)]
pub enum Delay {
    /// So many rows.
    Fixed(u64),
    /// As each use says: a register's first event is held until its second.
    Gap,
    /// The second event of a register: it ends a use and triggers nothing.
    End,
}

/// So many rows after the event with this number, counted from 0.
#[derive(Clone, Copy, Debug, PartialEq, Eq)]
pub struct Off {
    pub event: u8,
    pub plus: u64,
}

/// An event, with its interface port if it has one.
#[derive(Debug, Drop)]
pub struct SigEvent {
    pub name: Word,
    pub delay: Delay,
    pub go: Option<Word>,
}

/// A data port, in the interval `[from, to)`, with its width in bits.
#[derive(Debug, Drop)]
pub struct SigPort {
    pub name: Word,
    pub from: Off,
    pub to: Off,
    pub width: u8,
}

/// The signature of a primitive or a component.
#[derive(Debug, Drop)]
pub struct TimeSig {
    pub events: Vec<SigEvent>,
    pub ins: Vec<SigPort>,
    pub outs: Vec<SigPort>,
}
