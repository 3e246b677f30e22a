//! The least loop of a graph: the one that starts with the least port, by its name, that lies on any.
ghost use Rattle.std.specs.Prelude.{◌≡◌, ℕ, ◌<◌, ◌≤◌, ◌^◌, ◌↔◌, length, slice_index, All, Any, IfOk, IfNone, IfSome, IsTrue};
ghost use Rattle.hw_graph.specs.inside.Components.{NeverRises, LeavesNoCycle};
ghost use Rattle.hw_graph.specs.Loop.{IfLoop};
ghost use Rattle.hw_graph.specs.Graph.{AreInRange, IsReadOrder, IsCycleFrom, IsLeastCycle, IsLeastCycleAmong, IsOffCycles};

use crate::by_name::least_marked;
use crate::components::component_numbers;
use crate::groups::Groups;
use crate::order_end::OrderEnd;
use crate::search::read_order;
use crate::walk::Walk;
use hw_bits::Memory;
use hw_names::Names;
use std::alloc::Global;

/// The ports in an order in which each comes after all that it reads, or the least loop.
pub fn order_or_least_loop(
    alloc: Global,
    reads: &Groups,
    names: &Names,
) -> Result<Vec<usize>, OrderEnd>
    requires in_range { AreInRange reads.now }
    requires names { length reads.now ≡ length names.now }
    requires room { length reads.now < 2 ^ 32 }
    ensures order { IfOk result (λ order. IsReadOrder reads.now order.items) }
    ensures cycle { IfLoop result (λ ports. IsLeastCycle reads.now names.now ports) }
{
    match read_order(alloc, reads) {
        Ok(order) => Ok(order),
        Err(OrderEnd::Memory) => Err(OrderEnd::Memory),
        Err(OrderEnd::Loop { ports: _some }) => match least_loop_among(alloc, reads, names)? {
            Some(ports) => Err(OrderEnd::Loop { ports }),
            None => unreachable!(),
        },
    }
}

/// The loop that starts with the least port, by the bytes of its name, that lies on any; none where no
/// port lies on one. The ports are the first nodes, as many as there are names; nodes behind them have no
/// names.
pub fn least_loop_among(
    alloc: Global,
    reads: &Groups,
    names: &Names,
) -> Result<Option<Vec<usize>>, Memory>
    requires in_range { AreInRange reads.now }
    requires names { length names.now ≤ length reads.now }
    requires room { length reads.now < 2 ^ 32 }
    ensures some { IfOk result
        (λ found. IfSome found (λ ports. IsLeastCycleAmong reads.now names.now ports.items)) }
    ensures none { IfOk result
        (λ found. IfNone found ((port : ℕ) → port < length names.now → IsOffCycles reads.now port)) }
{
    let numbers = component_numbers(alloc, reads)?;
    let mut marks = mark_inner_readers(alloc, reads, numbers.as_slice(), names.len())?;
    // As the numbers are those of the strongly connected components, each port with a mark lies on a loop,
    // and the first search finds it; were it not so, others would follow.
    while let Some(port) = least_marked(names, marks.as_slice()) {
        if let Some(ports) = cycle_from(alloc, reads, port)? {
            return Ok(Some(ports));
        }
        marks[port] = false;
    }
    Ok(None)
}

/// Marks those of the first ports, as many as the count says, that read one of their own number. No other
/// of them lies on a loop.
fn mark_inner_readers(
    alloc: Global,
    reads: &Groups,
    numbers: &[usize],
    count: usize,
) -> Result<Vec<bool>, Memory>
    requires in_range { AreInRange reads.now }
    requires all { length numbers.now ≡ length reads.now }
    requires falling { NeverRises reads.now numbers.now }
    requires count { count ≤ length reads.now }
    ensures { IfOk result (λ marks. LeavesNoCycle reads.now count marks.items) }
{
    let mut marks = Vec::new(alloc);
    for port in 0..count {
        marks.push(has_number(numbers, reads.get(port), numbers[port]))?;
    }
    Ok(marks)
}

/// Whether one of the ports has this number.
fn has_number(numbers: &[usize], ports: &[usize], number: usize) -> bool
    requires { All (λ port. port < length numbers.now) ports.now }
    ensures { IsTrue result ↔ Any (λ port. slice_index numbers.now port ≡ number) ports.now }
{
    for port in ports {
        if numbers[*port] == number {
            return true;
        }
    }
    false
}

/// A loop that starts with this port, if there is one.
fn cycle_from(alloc: Global, reads: &Groups, start: usize) -> Result<Option<Vec<usize>>, Memory>
    requires in_range { AreInRange reads.now }
    requires start { start < length reads.now }
    ensures some { IfOk result (λ found. IfSome found (λ ports. IsCycleFrom reads.now start ports.items)) }
    ensures none { IfOk result (λ found. IfNone found (IsOffCycles reads.now start)) }
{
    let mut walk = Walk::new(alloc, reads)?;
    walk.enter(start)?;
    while let Some(top) = walk.path.last().copied() {
        if walk.step(reads, top)? == Some(start) {
            return Ok(Some(walk.path));
        }
    }
    Ok(None)
}
