//! Runs of one netlist side by side.
//!
//! In: a netlist, its table and the order of its ports, as in `net_sim`, of which no port is wider than 64 bits; then for each row
//! the value of each input in each of eight lanes. Out: for each lane the values of all ports in the row, and the Conflict that
//! ends its run (`LaneSim`).
//!
//!     net pick                       row 0    lane 0   lane 1   lane 2
//!     in a 1                         a        0        1        rests
//!     out q 1                        q        0        Conflict
//!     set q = a ? 1'd1
//!     set q = 1'd0
//!     end
//!
//! Each lane is a run by itself: inputs and loads of a lane touch that lane alone. A lane in which a Conflict came, or that rests
//! since its run is over, stays as it is, whatever the others get.
//!
//! How it goes: each lane has a simulation of its own, by `net_row`.
//!
//! What the layer above uses: `LaneSim::new`, `load`, `rest`, `row` and `edge` say what they make of each lane (`AreNewLanes`,
//! `OneChanges`, `EachChanges`), by the words of `net_sim`, whose laws join that to the netlist's run. `first_wide` judges the rule
//! B1: it finds the first line that makes a port of more than 64 bits.
#![tactic(auto)]

mod lane;
mod lane_sim;
mod laws;
mod narrow;

pub use lane::LANES;
pub use lane_sim::LaneSim;
pub use laws::{lanes_end_in_their_conflicts, lanes_go_on, lanes_stay};
pub use narrow::{LANE_BITS, first_wide};
