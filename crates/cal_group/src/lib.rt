//! Groups and invokes of Calyx: invokes become groups, and groups with rules become guarded wires.
//!
//! These are two steps of lowering, round that of control. `expand_invoke` takes a design that keeps C1 to C12, and gives one
//! without invokes: each has become the group that it stands for, named by its item, which is enabled in its place. Of item 12 of
//! a component, where `t` is a `std_mult_pipe(16)`,
//!
//!     invoke t(left = n, right = n)();     becomes     c$invoke12;     where
//!     group c$invoke12 { t.left = n; t.right = n; t.go = 1'd1; c$invoke12[done] = t.done; }
//!
//! `remove_groups` takes a design without control, with a rule for each group, and gives one of wires alone: a group's
//! assignments are continuous, each under the group's rule and its own guard. Where the rule of `set` is `c$acts$set.out`,
//!
//!     group set { r.in = 8'd5; r.write_en = 1'd1; set[done] = r.done; }     becomes
//!     r.in = c$acts$set.out ? 8'd5;  r.write_en = c$acts$set.out ? 1'd1;
//!
//! What the layer above uses: `expand_invoke` gives a design that `Expands` the source, `remove_groups` one that `RemovesGroups` of
//! it. Each keeps the components with their ports and cells, Calyx's rules, and plain names; it has a text where the source has;
//! and from each component as the top, each run of the answer is one of the source, with the same stop.
#![tactic(auto)]

mod expand;
mod remove;

pub use expand::expand_invoke;
pub use remove::remove_groups;
