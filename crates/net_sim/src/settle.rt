//! What the assignments to a port give it in a row.
ghost use Rattle.std.specs.Prelude.{◌≡◌, ℕ, ◌^◌, ◌<◌, ◌≤◌, ◌++◌, [], ◌∷◌, List, length, slice_get, slice_index, Some};
ghost use Rattle.hw_bits.specs.Values.{values_of, widths_of};
ghost use Rattle.hw_bits.specs.declared.bits.TheConstants.{MAX_WIDTH};
ghost use Rattle.net_core.specs.Guard.{guard_holds};
ghost use Rattle.net_core.specs.NetRun.{values_for};
ghost use Rattle.net_core.specs.Netlist.{SetLine, netlist_of};
ghost use Rattle.net_sim.specs.Evaluated.{HasSourceWidth};
ghost use Rattle.net_sim.specs.Layout.{port_names, port_widths, name_of};
ghost use Rattle.net_sim.specs.Plan.{IsPlan};
ghost use Rattle.net_sim.specs.inside.Settled.{IsSettled, FitsWidth, settled_value, value_if_acting};
ghost use Rattle.net_sim.specs.Sim.{port_row};

use crate::branches::{guard_truth, slot_value};
use crate::plan::Plan;
use hw_bits::Bits;

/// What drives a port in a row.
#[derive(Clone, Copy, Debug)]
pub enum Settled {
    /// Nothing does.
    Undriven,
    /// One value does.
    Driven(u128),
    /// Two assignments or more do: a Conflict.
    Clash,
}

impl Settled {
    /// The value that a port of this width, in bits, then has: 0 where nothing drives it, or there is a Conflict.
    pub fn value(self, width: u8) -> Bits
        requires wide { 1 ≤ width }
        requires narrow { width ≤ MAX_WIDTH }
        ensures value { FitsWidth width self → result.value ≡ settled_value self }
        ensures width { result.width ≡ width }
    {
        match self {
            Settled::Driven(value) => Bits::wrap(value, width),
            Settled::Undriven | Settled::Clash => Bits::wrap(0, width),
        }
    }

    /// With one more assignment that drives the port.
    fn and(self, value: u128) -> Settled
        ensures { (width : ℕ) (others : List ℕ) → value < 2 ^ width → IsSettled width others self
            → IsSettled width (others ++ value ∷ []) result }
    {
        match self {
            Settled::Undriven => Settled::Driven(value),
            Settled::Driven(_) | Settled::Clash => Settled::Clash,
        }
    }
}

/// What the assignments to a port give it, from the values of the ports that they read.
pub fn settle(plan: &Plan, port: usize, values: &[Bits]) -> Settled
    requires plan { IsPlan plan.now }
    requires port { port < length (port_names (netlist_of plan.now.net.now)) }
    requires values { widths_of values.now ≡ port_widths (netlist_of plan.now.net.now) }
    ensures { IsSettled
        (slice_index (port_widths (netlist_of plan.now.net.now)) port)
        (values_for
        (name_of (netlist_of plan.now.net.now) port)
        (port_row (netlist_of plan.now.net.now) (values_of values.now))
        (netlist_of plan.now.net.now).sets)
        result }
{
    let mut settled = Settled::Undriven;
    for number in plan.order.sets(port) {
        settled = with_set(plan, settled, *number, values);
    }
    settled
}

/// With one more assignment to the port, which counts where it acts.
fn with_set(plan: &Plan, settled: Settled, number: usize, values: &[Bits]) -> Settled
    requires plan { IsPlan plan.now }
    requires number { number < length (netlist_of plan.now.net.now).sets }
    requires values { widths_of values.now ≡ port_widths (netlist_of plan.now.net.now) }
    ensures { (width : ℕ) (others : List ℕ)
        → HasSourceWidth (netlist_of plan.now.net.now) number width
        → IsSettled width others settled
        → IsSettled
        width
        (others ++ value_if_acting
        (port_row (netlist_of plan.now.net.now) (values_of values.now))
        (slice_get (netlist_of plan.now.net.now).sets number))
        result }
{
    if acts(plan, number, values) {
        let slot = plan.lowered.sources[number];
        let value = slot_value(slot, plan.lowered.literals.as_slice(), values);
        settled.and(value.value())
    } else {
        settled
    }
}

/// Whether an assignment acts: it has no guard, or its guard is true.
fn acts(plan: &Plan, number: usize, values: &[Bits]) -> bool
    requires plan { IsPlan plan.now }
    requires number { number < length (netlist_of plan.now.net.now).sets }
    requires values { widths_of values.now ≡ port_widths (netlist_of plan.now.net.now) }
    ensures { (a : SetLine) → slice_get (netlist_of plan.now.net.now).sets number ≡ Some a
        → result ≡ guard_holds (port_row (netlist_of plan.now.net.now) (values_of values.now)) a.guard }
{
    let lowered = &plan.lowered;
    let start = lowered.starts[number];
    guard_truth(
        lowered.branches.as_slice(),
        start,
        lowered.literals.as_slice(),
        values,
    )
}
