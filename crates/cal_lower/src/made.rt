//! What parts of a plan are gone over with, and what they are lowered to.
use crate::acts::Acts;
use crate::pieces::Pieces;
use cal_ast::{CalPort, Control};
use hw_names::NameId;
use net_core::Guard;

/// What the parts of a plan are lowered to: pieces, and when control wants groups.
#[derive(Drop)]
pub(crate) struct Parts {
    pub pieces: Pieces,
    pub acts: Acts,
}

/// A part of a plan: its number, and the port that is 1 in the rows in which it starts.
#[derive(Clone, Copy)]
pub(crate) struct Entry {
    pub number: u64,
    pub start: CalPort,
}

/// A part that starts by its own token, in the row after one in which the guard is true.
#[derive(Drop)]
pub(crate) struct Later {
    pub number: u64,
    pub next: Guard<CalPort>,
}

/// A part in turn: it starts where the first one does, or after the part with the number before it.
#[derive(Clone, Copy)]
pub(crate) struct Turn {
    pub number: u64,
    pub start: CalPort,
    pub before: Option<u64>,
}

/// A test: the port that is read, and the group that acts then.
#[derive(Clone, Copy)]
pub(crate) struct Test {
    pub port: CalPort,
    pub by: Option<NameId>,
}

/// A statement inside another one, and the number of its part.
#[derive(Clone, Copy)]
pub(crate) struct Inner<'a> {
    pub number: u64,
    pub control: &'a Control,
}

/// A choice: its test, and its branches.
#[derive(Clone, Copy)]
pub(crate) struct Choice<'a> {
    pub test: Test,
    pub on: Inner<'a>,
    pub off: Inner<'a>,
}

/// A loop: its test, and its body.
#[derive(Clone, Copy)]
pub(crate) struct Repeat<'a> {
    pub test: Test,
    pub body: Inner<'a>,
}
