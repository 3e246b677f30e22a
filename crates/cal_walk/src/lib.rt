//! The control of Calyx components, walked forward row by row.
//!
//! In: a design that keeps the rules. Out: for each component its control as a `Plan` over numbers, with its invokes and the
//! ports of its conditions (`controls`); and for an instance in each row how far control has come (`Stage`), and the actors that
//! it wants (`Marks`). An actor is a group or an invoke. Of
//!
//!     control { seq { a; b; } }
//!
//! the plan is `InTurn` of two actors, and it goes, where `a` is done in row 3 and `b` in row 7,
//!
//!     row    before the row         wanted in the row
//!     2      Waiting, and go is 1   a
//!     3      a; b are left          a, which is done and so does not act
//!     4      b is left              b, and so in the rows 5, 6 and 7
//!     8      Finished               none: it is the done row
//!
//! How it goes: `plan` and `planning` make plans of control, `left` has what is left of a plan after a row in which control saw
//! which actors are done and which conditions read 1 (`Seen`), `stage` the stage after that row, and `marks` the actors that are
//! enabled and those that act for a test.
//!
//! What the layer above uses: each component's plan, invokes and conditions are those of its control (`AreControlsOf`); `Stage`
//! goes from row to row and marks actors as the definitions `next_progress`, `enabled_now` and `tested_now` say. The law
//! `walking_is_the_schedule` joins these to the schedule of `cal_ast`, which is read over a whole run: the same actors act in
//! each row, and the same rows are done rows.
#![tactic(auto)]

mod laws;
mod left;
mod marks;
mod plan;
mod planning;
mod seen;
mod stage;

pub use laws::walking_is_the_schedule;
pub use left::Left;
pub use marks::Marks;
pub use plan::Plan;
pub use planning::{Controlled, Invoke, controls};
pub use seen::Seen;
pub use stage::Stage;
