//! The assignments of a netlist lowered to the slots of a row.
ghost use Rattle.std.specs.Prelude.{◌≡◌, ℕ, ◌^◌, ◌<◌, length, IfOk};
ghost use Rattle.net_core.specs.Netlist.{netlist_of};
ghost use Rattle.net_core.specs.Numbers.{HasNumbers};
ghost use Rattle.net_core.specs.Rules.{IsValid};
ghost use Rattle.net_core.specs.Table.{IsTableOf};
ghost use Rattle.net_sim.specs.Branches.{AreBranches, AreSlots, IsSlotOf, KeepsLiterals, next_by};
ghost use Rattle.net_sim.specs.Lowered.{AreLowered};
ghost use Rattle.net_sim.specs.Tests.{AreTests, exit_at};

use crate::branches::Branch;
use crate::flatten::flatten;
use crate::guards::{FlatGuards, Test, compare};
use crate::plan::{Source, sources};
use hw_bits::{Bits, Memory};
use net_core::{Net, Table};
use std::alloc::Global;

/// The assignments of a netlist: for each the slot of its source, and where its guard begins, at a branch or at an end.
#[derive(Drop)]
pub struct Lowered {
    pub sources: Vec<u32>,
    pub starts: Vec<u32>,
    pub branches: Vec<Branch>,
    pub literals: Vec<Bits>,
}

/// The assignments of the netlist, whose table this is.
pub fn lower(alloc: Global, net: &Net, table: &Table) -> Result<Lowered, Memory>
    requires valid { IsValid (netlist_of net.now) }
    requires numbers { HasNumbers net.now }
    requires table { IsTableOf (netlist_of net.now) table.now }
    ensures { IfOk result (AreLowered (netlist_of net.now)) }
{
    let ports = table.names.len();
    let mut literals = Vec::new(alloc);
    let sources = sources(alloc, net, table)?;
    let slots = slots(alloc, sources.as_slice(), ports, &mut literals)?;
    let FlatGuards { tests, starts } = flatten(alloc, net, table)?;
    let branches = branches(alloc, tests.as_slice(), ports, &mut literals)?;
    Ok(Lowered {
        sources: slots,
        starts,
        branches,
        literals,
    })
}

/// The slots of the sources. It adds their literals.
fn slots(
    alloc: Global,
    sources: &[Source],
    ports: usize,
    literals: &mut Vec<Bits>,
) -> Result<Vec<u32>, Memory>
    requires { ports < 2 ^ 32 }
    ensures { IfOk result (λ slots. AreSlots ports literals.new.items sources.now slots.items) }
{
    let mut slots = Vec::new(alloc);
    for source in sources {
        slots.push(slot_of(*source, ports, literals)?)?;
    }
    Ok(slots)
}

/// The branches of the tests. It adds their literals.
fn branches(
    alloc: Global,
    tests: &[Test],
    ports: usize,
    literals: &mut Vec<Bits>,
) -> Result<Vec<Branch>, Memory>
    requires tests { AreTests ports tests.now }
    requires ports { ports < 2 ^ 32 }
    ensures kept { IfOk result (λ _. KeepsLiterals literals.old.items literals.new.items) }
    ensures branches { IfOk result (λ branches. AreBranches ports literals.new.items tests.now branches.items) }
{
    let mut branches = Vec::new(alloc);
    for test in tests {
        let left = slot_of(test.left, ports, literals)?;
        let right = slot_of(test.right, ports, literals)?;
        let lowered = branch_of(*test, left, right);
        branches.push(lowered)?;
    }
    Ok(branches)
}

/// The slot of a source. It adds a literal.
fn slot_of(source: Source, ports: usize, literals: &mut Vec<Bits>) -> Result<u32, Memory>
    requires { ports < 2 ^ 32 }
    ensures kept { IfOk result (λ _. KeepsLiterals literals.old.items literals.new.items) }
    ensures slot { IfOk result (IsSlotOf ports literals.new.items source) }
{
    match source {
        Source::Slot(port) => slot_number(port),
        Source::Fixed(bits) => {
            let slot = slot_number(ports + literals.len())?;
            literals.push(bits)?;
            Ok(slot)
        }
    }
}

/// The number as a slot's. There is no memory for more slots than 32 bits count.
fn slot_number(number: usize) -> Result<u32, Memory>
    ensures { IfOk result (λ slot. slot ≡ number) }
{
    if number > u32::MAX as usize {
        return Err(Memory);
    }
    Ok(number as u32)
}

/// The branch of a test, whose sources have these slots.
fn branch_of(test: Test, left: u32, right: u32) -> Branch
    ensures left { result.left ≡ left }
    ensures right { result.right ≡ right }
    ensures leads { (a b : ℕ) → next_by result a b ≡ exit_at test a b }
{
    Branch {
        left,
        right,
        less: exit(test, 0, 1),
        equal: exit(test, 0, 0),
        greater: exit(test, 1, 0),
    }
}

/// Where a test leads, if its sources have these values.
fn exit(test: Test, left: u128, right: u128) -> u32
    ensures { result ≡ exit_at test left right }
{
    if compare(test.op, left, right) {
        test.yes
    } else {
        test.no
    }
}
