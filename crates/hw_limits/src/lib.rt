//! The limits of the program, each said once: on the bytes of a file, on how deep a text nests, on the numbers that a design
//! writes, on what it makes, and on a run.
//!
//! A file that goes over one is refused with a line `limit ..`, or by the rule to which the limit belongs (F5 for events).
//!
//!     a.fil has 1,048,577 bytes              limit source 1048577 over 1048576
//!     a netlist has a weight of 1,000,001    limit weight 1000001 over 1000000
//!
//! Widths of values (`hw_bits::MAX_WIDTH`) and words of one memory (`hw_prims::MAX_WORDS`) are no limits in this sense: they
//! are the ranges of what a primitive can be made with, and stand beside the primitives.
//!
//! What the layer above uses: the numbers themselves. Definitions cite them as `hw_limits.specs.declared.limits.TheConstants`.
#![tactic(auto)]

mod limits;

pub use limits::{
    MOST_CAL_BYTES, MOST_CYCLES, MOST_EVENTS, MOST_FIL_BYTES, MOST_NESTING, MOST_NET_BYTES,
    MOST_NET_NESTING, MOST_OFFSET, MOST_ROWS, MOST_STIMULUS_BYTES, MOST_TRANSACTIONS, MOST_WEIGHT,
    MOST_WORDS,
};
