//! Guards as branches over the slots of a row, and their truths.
ghost use Rattle.std.specs.Prelude.{◌≡◌, ◌+◌, ◌<◌, ◌++◌, Bool, List, length, slice_get, slice_index, Some};
ghost use Rattle.hw_bits.specs.Values.{values_of};
ghost use Rattle.net_sim.specs.Branches.{AreBranches, next_by};
ghost use Rattle.net_sim.specs.Tests.{Leads, end_of};
ghost use Rattle.net_sim.specs.declared.guards.Test.{Test};

use crate::guards::{FIRST, TRUE};
use hw_bits::Bits;

/// A comparison of the values of two slots, and where to go on by their order: the numbers of earlier branches, or ends.
/// A row has a slot for each port, and after them one for each literal.
#[derive(Clone, Copy, Debug)]
pub struct Branch {
    pub left: u32,
    pub right: u32,
    pub less: u32,
    pub equal: u32,
    pub greater: u32,
}

/// The truth to which the branches lead.
pub fn guard_truth(branches: &[Branch], start: u32, literals: &[Bits], values: &[Bits]) -> bool
    requires branches { (tests : List Test) × AreBranches (length values.now) literals.now tests branches.now }
    requires start { start < length branches.now + 2 }
    ensures { (tests : List Test) (truth : Bool) → AreBranches (length values.now) literals.now tests branches.now
        → Leads tests (values_of values.now) (end_of truth) start → result ≡ truth }
{
    let mut number = start;
    while number >= FIRST {
        let place = (number - FIRST) as usize;
        number = next(&branches[place], literals, values);
    }
    number == TRUE
}

/// Where a branch leads.
fn next(branch: &Branch, literals: &[Bits], values: &[Bits]) -> u32
    requires left { branch.now.left < length values.now + length literals.now }
    requires right { branch.now.right < length values.now + length literals.now }
    ensures { result
        ≡ next_by
        branch.now
        (slice_index (values_of (values.now ++ literals.now)) branch.now.left)
        (slice_index (values_of (values.now ++ literals.now)) branch.now.right) }
{
    let left = slot_value(branch.left, literals, values).value();
    let right = slot_value(branch.right, literals, values).value();
    if left < right {
        branch.less
    } else if left == right {
        branch.equal
    } else {
        branch.greater
    }
}

/// The value of a slot.
pub fn slot_value(slot: u32, literals: &[Bits], values: &[Bits]) -> Bits
    requires { slot < length values.now + length literals.now }
    ensures { slice_get (values.now ++ literals.now) slot ≡ Some result }
{
    let slot = slot as usize;
    if slot < values.len() {
        values[slot]
    } else {
        literals[slot - values.len()]
    }
}
