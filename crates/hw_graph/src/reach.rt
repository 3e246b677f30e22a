//! Which ports a port reads, directly or through others.
ghost use Rattle.std.specs.Prelude.{◌≡◌, ℕ, ◌<◌, ◌↔◌, [], length, All, Contains, IfOk};
ghost use Rattle.hw_graph.specs.Graph.{AreInRange, AreDistinct, Reaches};
ghost use Rattle.hw_graph.specs.Reach.{AreMarked, HasAdded};

use crate::groups::Groups;
use hw_bits::Memory;
use std::alloc::Global;
use std::marker::Model;

/// A search for what ports read, for one start after another.
#[derive(Drop)]
pub struct Reach {
    /// Which ports are reached: none between two searches.
    marks: Vec<bool>,
}

impl Model for Reach {
    ghost use Rattle.std.specs.Prelude.{ℕ, length, []};
    ghost use Rattle.hw_graph.specs.Reach.{AreMarked};

    ghost Value = { ℕ };

    ghost view = { λ reach. length reach.marks.items };

    ghost invariant = { λ reach. AreMarked reach.marks.items [] };
}

impl Reach {
    /// A search in graphs of as many ports as this one.
    pub fn new(alloc: Global, reads: &Groups) -> Result<Reach, Memory>
        ensures { IfOk result (λ reach. reach ≡ length reads.now) }
    {
        let marks = vec![in alloc; false; reads.len()]?;
        Ok(Reach { marks })
    }

    /// The ports that the start reads, directly or through others, each once. The start is among them where
    /// it lies on a loop. It takes time for the reads of these ports alone, and can be called again, also
    /// after `Memory`.
    pub fn from(
        &mut self,
        alloc: Global,
        reads: &Groups,
        start: usize,
    ) -> Result<Vec<usize>, Memory>
        requires in_range { AreInRange reads.now }
        requires size { self.old ≡ length reads.now }
        requires start { start < length reads.now }
        ensures reached { IfOk result
            (λ ports. (port : ℕ) → Contains ports.items port ↔ Reaches reads.now start port) }
        ensures once { IfOk result (λ ports. AreDistinct ports.items) }
        ensures in_range { IfOk result (λ ports. All (λ port. port < length reads.now) ports.items) }
        ensures size { self.new ≡ self.old }
    {
        let mut reached = Vec::new(alloc);
        let end = add_reached(self.marks.as_mut_slice(), &mut reached, reads, start);
        unmark(self.marks.as_mut_slice(), reached.as_slice());
        end?;
        Ok(reached)
    }
}

/// Adds all that the start reads, directly or through others. From `next` on the list is also the queue of
/// ports whose reads are to be looked at.
fn add_reached(
    marks: &mut [bool],
    reached: &mut Vec<usize>,
    reads: &Groups,
    start: usize,
) -> Result<(), Memory>
    requires in_range { AreInRange reads.now }
    requires start { start < length reads.now }
    requires size { length marks.old ≡ length reads.now }
    requires none { reached.old.items ≡ [] }
    requires marks { AreMarked marks.old [] }
    ensures marks { AreMarked marks.new reached.new.items }
    ensures reached { IfOk result
        (λ _. (port : ℕ) → Contains reached.new.items port ↔ Reaches reads.now start port) }
{
    add_unmarked(marks, reached, reads.get(start))?;
    let mut next = 0;
    while next < reached.len() {
        add_unmarked(marks, reached, reads.get(reached[next]))?;
        next += 1;
    }
    Ok(())
}

/// Adds and marks those of the ports that have no mark.
fn add_unmarked(marks: &mut [bool], reached: &mut Vec<usize>, ports: &[usize]) -> Result<(), Memory>
    requires in_range { All (λ port. port < length marks.old) ports.now }
    requires marks { AreMarked marks.old reached.old.items }
    ensures marks { AreMarked marks.new reached.new.items }
    ensures added { IfOk result
        (λ _. HasAdded (length ports.now) ports.now reached.old.items reached.new.items) }
{
    for port in ports {
        if !marks[*port] {
            reached.push(*port)?;
            marks[*port] = true;
        }
    }
    Ok(())
}

/// Takes the marks of these ports away.
fn unmark(marks: &mut [bool], ports: &[usize])
    requires { AreMarked marks.old ports.now }
    ensures { AreMarked marks.new [] }
{
    for port in ports {
        marks[*port] = false;
    }
}
