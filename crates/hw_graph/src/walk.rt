//! A walk through a graph, depth first, that goes on where a read closes a loop.
ghost use Rattle.std.specs.Prelude.{◌≡◌, ℕ, ◌-◌, ◌<◌, [], ◌∷◌, ◌++◌, length, slice_set, slice_index, All, IfOk, true};
ghost use Rattle.hw_graph.specs.Graph.{AreInRange};
ghost use Rattle.hw_graph.specs.inside.Unread.{AreUnread};
ghost use Rattle.hw_graph.specs.Walk.{IsWalk, IsStep, work_left};

use crate::groups::Groups;
use crate::unread::{next_read, unread};
use hw_bits::Memory;
use std::alloc::Global;

/// A walk through the ports.
#[derive(Drop)]
pub struct Walk {
    /// Which ports it has reached.
    pub seen: Vec<bool>,
    /// How many of a port's reads it has not looked at.
    pub left: Vec<usize>,
    /// The ports from where it began to where it stands, each of which reads the next.
    pub path: Vec<usize>,
}

impl Walk {
    /// Nothing is reached.
    pub fn new(alloc: Global, reads: &Groups) -> Result<Walk, Memory>
        ensures walk { IfOk result (IsWalk reads.now) }
        ensures path { IfOk result (λ walk. walk.path.items ≡ []) }
        ensures left { IfOk result (λ walk. AreUnread reads.now walk.left.items) }
    {
        Ok(Walk {
            seen: vec![in alloc; false; reads.len()]?,
            left: unread(alloc, reads)?,
            path: Vec::new(alloc),
        })
    }

    /// Goes on to the port.
    pub fn enter(&mut self, port: usize) -> Result<(), Memory>
        requires { port < length self.old.seen.items }
        ensures seen { self.new.seen.items ≡ slice_set self.old.seen.items port true }
        ensures path { IfOk result (λ _. self.new.path.items ≡ self.old.path.items ++ port ∷ []) }
        ensures left { self.new.left.items ≡ self.old.left.items }
    {
        self.seen[port] = true;
        self.path.push(port)?;
        Ok(())
    }

    /// Looks at the next read of the last port on the path, and goes on to it if it was not reached.
    /// Goes back where none is left. Gives the port that was read.
    pub fn step(&mut self, reads: &Groups, top: usize) -> Result<Option<usize>, Memory>
        requires in_range { AreInRange reads.now }
        requires walk { IsWalk reads.now self.old }
        requires some { 0 < length self.old.path.items }
        requires top { top ≡ slice_index self.old.path.items (length self.old.path.items - 1) }
        ensures walk { IfOk result (λ _. IsWalk reads.now self.new) }
        ensures step { IfOk result (λ read. IsStep reads.now self.old self.new top read) }
        ensures less { IfOk result (λ _. work_left self.new < work_left self.old) }
    {
        let Some(read) = next_read(&mut self.left, reads, top) else {
            let _last = self.path.pop();
            return Ok(None);
        };
        if self.seen[read] {
            return Ok(Some(read));
        }
        self.enter(read)?;
        Ok(Some(read))
    }

    /// Reaches all that the port reads, directly or through others, and adds to `done` each port from
    /// which it goes back. Does nothing where the port was reached before.
    pub fn visit(
        &mut self,
        reads: &Groups,
        port: usize,
        done: &mut Vec<usize>,
    ) -> Result<(), Memory>
        requires in_range { AreInRange reads.now }
        requires walk { IsWalk reads.now self.old }
        requires path { self.old.path.items ≡ [] }
        requires port { port < length reads.now }
        requires done { All (λ member. member < length reads.now) done.old.items }
        ensures walk { IfOk result (λ _. IsWalk reads.now self.new) }
        ensures path { IfOk result (λ _. self.new.path.items ≡ []) }
        ensures done { IfOk result (λ _. All (λ member. member < length reads.now) done.new.items) }
    {
        if self.seen[port] {
            return Ok(());
        }
        self.enter(port)?;
        while let Some(top) = self.path.last().copied() {
            if self.step(reads, top)?.is_none() {
                done.push(top)?;
            }
        }
        Ok(())
    }
}
