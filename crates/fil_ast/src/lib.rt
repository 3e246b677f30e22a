//! Filament designs: their trees, and what their rules and their meaning are.
//!
//! The trees are types of code (`FilDesign`, `FilComp`, `Stmt`, ..), in which each name is a number of the design's names. Of
//!
//!     s := A<G+2>(p.out, c2.out);
//!
//! comes `Stmt::Call` with the names `s` and `A`, the time `G+2` and two arguments `Value::Out`. The definitions are about the
//! same trees with texts for names (`design_of`), and say
//!
//!     KeepsRules, FilRules      the rules F1 to F13, item by item; these, and F14: no component has a loop of wires
//!     IsRefusal                 the first rule that is broken, where, and with what evidence
//!     flow                      what a component's outputs are on values of its inputs, by plain dataflow
//!     AreLegalStarts, holds_of  lists of transactions that keep the declared delays; what they hold, and in which rows
//!     component_behaviour       what a component promises at its ports: its signature and its flow
//!     inner_transactions        the transactions that a component gives an instance in its own
//!
//! For the component `Mac` of `examples/mac.fil`, `flow` of 3, 4 and 5 is 17, and neither rows nor instances come into it. A
//! transaction that starts in row 0 holds `M` in the rows [0, 1) and the adder `A` in [2, 3).
//!
//! What the layers above use: these definitions, which their contracts cite, and two kinds of values. `FilOk` is a loan of a
//! design that keeps F1 to F14, with offsets and delays up to `MOST_OFFSET`: its invariant says so. `Tx` and `TxList` are
//! transactions as a program has them: an event, the row of its start, and values for the event's inputs.
#![tactic(auto)]

mod ok;
mod tree;
mod tx;

pub use ok::FilOk;
pub use tree::{EventDef, FilComp, FilDesign, FilPort, GoPort, Stmt, Time, Value};
pub use tx::{Tx, TxList};
