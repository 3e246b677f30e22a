//! Designs on the way from control to wires.
use crate::tree::{CalDesign, CalPort};
use hw_names::NameId;
use net_core::Guard;

/// A design without `invoke` that keeps C1 to C12, but that its group names may start with `c$`.
#[derive(Drop)]
pub struct PlainDesign {
    pub design: CalDesign,
}

/// When a group of a component acts; components are counted from 0.
#[derive(Drop)]
pub struct ActRule {
    pub comp: usize,
    pub group: NameId,
    pub when: Guard<CalPort>,
}

/// A design without control, and one rule for each group, which acts exactly where its rule is true.
#[derive(Drop)]
pub struct HoleDesign {
    pub design: CalDesign,
    pub acts: Vec<ActRule>,
}

/// A design of bare components without groups that keeps C1 to C12.
#[derive(Drop)]
pub struct WireDesign {
    pub design: CalDesign,
}
