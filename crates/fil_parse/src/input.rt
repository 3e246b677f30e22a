//! What stands in a component's list of inputs.
use fil_ast::{FilPort, GoPort};

/// An interface port or a data input.
#[derive(Clone, Copy, Debug, PartialEq, Eq)]
pub enum InputPort {
    Interface(GoPort),
    Data(FilPort),
}
