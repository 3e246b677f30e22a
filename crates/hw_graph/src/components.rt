//! Numbers of a graph's ports by their strongly connected components.
ghost use Rattle.std.specs.Prelude.{◌≡◌, ℕ, ◌<◌, ◌≤◌, ◌^◌, ◌↔◌, length, slice_index, All, IfOk, IsTrue};
ghost use Rattle.hw_graph.specs.inside.Components.{NeverRises, AreBelow};
ghost use Rattle.hw_graph.specs.Graph.{AreInRange};

use crate::groups::{Entry, Groups, gather};
use crate::walk::Walk;
use hw_bits::Memory;
use std::alloc::Global;

/// A number for each port, such that no read leads to a greater one: the ports of a loop have one number.
/// That no port of another component has it is not proved, and no answer rests on it.
pub fn component_numbers(alloc: Global, reads: &Groups) -> Result<Vec<usize>, Memory>
    requires in_range { AreInRange reads.now }
    requires room { length reads.now < 2 ^ 32 }
    ensures all { IfOk result (λ numbers. length numbers.items ≡ length reads.now) }
    ensures falling { IfOk result (λ numbers. NeverRises reads.now numbers.items) }
{
    let numbers = numbers_by_walks(alloc, reads)?;
    // A test in place of a proof that the walks find the components: it fails for no graph.
    if never_rises(reads, numbers.as_slice()) {
        return Ok(numbers);
    }
    Ok(vec![in alloc; 0; reads.len()]?)
}

/// Numbers by two walks: one gives an order of the ports, the other goes from the last of it on, from each
/// port to those that read it.
fn numbers_by_walks(alloc: Global, reads: &Groups) -> Result<Vec<usize>, Memory>
    requires in_range { AreInRange reads.now }
    requires room { length reads.now < 2 ^ 32 }
    ensures { IfOk result (λ numbers. length numbers.items ≡ length reads.now) }
{
    let order = order_of_return(alloc, reads)?;
    let readers = readers_of(alloc, reads)?;
    number_by(alloc, &readers, order.as_slice())
}

/// The ports in the order in which a walk goes back from them.
fn order_of_return(alloc: Global, reads: &Groups) -> Result<Vec<usize>, Memory>
    requires { AreInRange reads.now }
    ensures { IfOk result (λ order. All (λ port. port < length reads.now) order.items) }
{
    let mut order = Vec::new(alloc);
    let mut walk = Walk::new(alloc, reads)?;
    for port in 0..reads.len() {
        walk.visit(reads, port, &mut order)?;
    }
    Ok(order)
}

/// For each port the ports that read it.
fn readers_of(alloc: Global, reads: &Groups) -> Result<Groups, Memory>
    requires in_range { AreInRange reads.now }
    requires room { length reads.now < 2 ^ 32 }
    ensures all { IfOk result (λ readers. length readers ≡ length reads.now) }
    ensures in_range { IfOk result (λ readers. AreInRange readers) }
{
    let mut entries = Vec::new(alloc);
    for port in 0..reads.len() {
        add_reader(&mut entries, reads.get(port), port)?;
    }
    gather(alloc, entries.as_slice(), reads.len())
}

/// Adds that these ports are read by this one.
fn add_reader(entries: &mut Vec<Entry>, ports: &[usize], reader: usize) -> Result<(), Memory>
    ensures { IfOk result
        (λ _. (count : ℕ) → reader < count → All (λ port. port < count) ports.now
        → AreBelow count entries.old.items → AreBelow count entries.new.items) }
{
    for port in ports {
        entries.push(Entry {
            key: *port,
            value: reader,
        })?;
    }
    Ok(())
}

/// Goes through the order from its end. The ports that a walk from its port to readers reaches first get
/// the port's place as their number.
fn number_by(alloc: Global, readers: &Groups, order: &[usize]) -> Result<Vec<usize>, Memory>
    requires in_range { AreInRange readers.now }
    requires order { All (λ port. port < length readers.now) order.now }
    ensures { IfOk result (λ numbers. length numbers.items ≡ length readers.now) }
{
    let mut numbers = vec![in alloc; 0; readers.len()]?;
    let mut walk = Walk::new(alloc, readers)?;
    for place in (0..order.len()).rev() {
        let mut members = Vec::new(alloc);
        walk.visit(readers, order[place], &mut members)?;
        give_number(numbers.as_mut_slice(), members.as_slice(), place);
    }
    Ok(numbers)
}

/// Gives the members this number.
fn give_number(numbers: &mut [usize], members: &[usize], number: usize)
    requires { All (λ member. member < length numbers.old) members.now }
{
    for member in members {
        numbers[*member] = number;
    }
}

/// Whether no read leads to a greater number.
fn never_rises(reads: &Groups, numbers: &[usize]) -> bool
    requires in_range { AreInRange reads.now }
    requires all { length numbers.now ≡ length reads.now }
    ensures { IsTrue result ↔ NeverRises reads.now numbers.now }
{
    for port in 0..reads.len() {
        if !are_at_most(numbers, reads.get(port), numbers[port]) {
            return false;
        }
    }
    true
}

/// Whether the ports have at most this number.
fn are_at_most(numbers: &[usize], ports: &[usize], number: usize) -> bool
    requires { All (λ port. port < length numbers.now) ports.now }
    ensures { IsTrue result ↔ All (λ port. slice_index numbers.now port ≤ number) ports.now }
{
    for port in ports {
        if numbers[*port] > number {
            return false;
        }
    }
    true
}
