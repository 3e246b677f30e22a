//! Plain dataflow of a component: its outputs' values on values of its inputs.
//!
//! In: a design that keeps the rules (`FilOk`), a component by its number, and a value for each of its data inputs. Out: the
//! values of its outputs. Neither rows nor instances come into it: a multiplier gives the product, a register or a delay what it
//! is given.
//!
//! `Dataflow` makes, once, a plan of the component and of those before it: its invocations with numbered places for names, the
//! inputs first and then the outputs of the invocations. Of `examples/mac.fil`, where a, b and c are the places 0, 1 and 2, comes
//!
//!     p  := M<G>(a, b)            FastMult of 0 and 1     place 3
//!     c1 := Early<G>(c)           Delay of 2              place 4
//!     c2 := Late<G+1>(c1.out)     Delay of 4              place 5
//!     s  := A<G+2>(p.out, c2.out) Add of 3 and 5          place 6
//!     out = s.out                 the output is 6
//!
//! and on 3, 4 and 5 it gives 17.
//!
//! How it goes: `planning` makes the plan of a component statement by statement, `plans` those of a design, `machine` runs a
//! plan. Components that wait for another's outputs stand in a list, so that no depth of components takes stack.
//!
//! What the layer above uses: `Dataflow::values`, and `flow` in one call, give exactly what the definition `flow` of `fil_ast`
//! says, in the widths of the outputs.
#![tactic(auto)]

mod body;
mod dataflow;
mod earlier;
mod machine;
mod plan;
mod planning;
mod plans;
mod primitive;

pub use dataflow::{Dataflow, flow};
