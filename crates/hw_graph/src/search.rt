//! An order in which each port comes after all that it reads, or a loop: a search depth first.
ghost use Rattle.std.specs.Prelude.{◌≡◌, ℕ, ◌+◌, ◌-◌, ◌<◌, ◌≤◌, [], ◌∷◌, ◌++◌, length, take, slice_get, slice_set, slice_index, slice_index_or, Some, Contains, IfOk, IfNone, IfSome};
ghost use Rattle.hw_graph.specs.Graph.{AreInRange, IsReadOrder, IsCycle};
ghost use Rattle.hw_graph.specs.Loop.{IfLoop};
ghost use Rattle.hw_graph.specs.inside.Search.{mark_of, IsSearch, IsTail, IsSeen, KeepsSeen, work_of};

use crate::groups::Groups;
use crate::order_end::OrderEnd;
use crate::unread::{next_read, unread};
use hw_bits::Memory;
use std::alloc::{AllocError, AllocFailed, Global};

/// How far the search is with a port.
#[derive(Clone, Copy, Debug, PartialEq, Eq)]
pub enum Mark {
    Unseen,
    Open,
    Done,
}

/// A search through the ports.
#[derive(Drop)]
pub struct Search {
    /// How far it is with each port.
    pub marks: Vec<Mark>,
    /// How many of a port's reads it has not looked at.
    pub left: Vec<usize>,
    /// The open ports, each of which reads the next.
    pub path: Vec<usize>,
    /// The ports that are done.
    pub order: Vec<usize>,
}

/// The ports in an order in which each comes after all that it reads, or some loop.
pub fn read_order(alloc: Global, reads: &Groups) -> Result<Vec<usize>, OrderEnd>
    requires { AreInRange reads.now }
    ensures order { IfOk result (λ order. IsReadOrder reads.now order.items) }
    ensures cycle { IfLoop result (λ ports. IsCycle reads.now ports) }
{
    let mut search = Search::new(alloc, reads)?;
    for port in 0..reads.len() {
        if search.marks[port] == Mark::Unseen {
            search.visit(alloc, reads, port)?;
        }
    }
    Ok(search.order)
}

impl Search {
    /// Nothing is seen.
    fn new(alloc: Global, reads: &Groups) -> Result<Search, Memory>
        ensures search { IfOk result (IsSearch reads.now) }
        ensures path { IfOk result (λ s. s.path.items ≡ []) }
    {
        Ok(Search {
            marks: vec![in alloc; Mark::Unseen; reads.len()]?,
            left: unread(alloc, reads)?,
            path: Vec::new(alloc),
            order: Vec::new(alloc),
        })
    }

    /// Reaches all that the port reads, directly or through others, and puts it in order.
    fn visit(&mut self, alloc: Global, reads: &Groups, port: usize) -> Result<(), OrderEnd>
        requires in_range { AreInRange reads.now }
        requires search { IsSearch reads.now self.old }
        requires path { self.old.path.items ≡ [] }
        requires unseen { mark_of self.old.marks.items port ≡ Mark.Unseen }
        requires port { port < length reads.now }
        ensures search { IfOk result (λ _. IsSearch reads.now self.new) }
        ensures path { IfOk result (λ _. self.new.path.items ≡ []) }
        ensures seen { IfOk result (λ _. IsSeen self.new port) }
        ensures kept { IfOk result (λ _. KeepsSeen self.old self.new) }
        ensures cycle { IfLoop result (λ ports. IsCycle reads.now ports) }
    {
        self.open(port)?;
        while let Some(top) = self.path.last().copied() {
            self.step(alloc, reads, top)?;
        }
        Ok(())
    }

    /// Looks at the next read of the last port on the path, or closes it.
    fn step(&mut self, alloc: Global, reads: &Groups, top: usize) -> Result<(), OrderEnd>
        requires in_range { AreInRange reads.now }
        requires search { IsSearch reads.now self.old }
        requires some { 0 < length self.old.path.items }
        requires top { top ≡ slice_index self.old.path.items (length self.old.path.items - 1) }
        ensures search { IfOk result (λ _. IsSearch reads.now self.new) }
        ensures kept { IfOk result (λ _. KeepsSeen self.old self.new) }
        ensures less { IfOk result (λ _. work_of self.new < work_of self.old) }
        ensures cycle { IfLoop result (λ ports. IsCycle reads.now ports) }
    {
        let Some(read) = next_read(&mut self.left, reads, top) else {
            self.close(top)?;
            return Ok(());
        };
        match self.marks[read] {
            Mark::Unseen => {
                self.open(read)?;
                Ok(())
            }
            Mark::Open => Err(OrderEnd::Loop {
                ports: tail_from(alloc, self.path.as_slice(), read)?,
            }),
            Mark::Done => Ok(()),
        }
    }

    /// Goes on to the port.
    fn open(&mut self, port: usize) -> Result<(), Memory>
        requires { port < length self.old.marks.items }
        ensures marks { self.new.marks.items ≡ slice_set self.old.marks.items port Mark.Open }
        ensures path { IfOk result (λ _. self.new.path.items ≡ self.old.path.items ++ port ∷ []) }
        ensures left { self.new.left.items ≡ self.old.left.items }
        ensures order { self.new.order.items ≡ self.old.order.items }
    {
        self.marks[port] = Mark::Open;
        self.path.push(port)?;
        Ok(())
    }

    /// Goes back from the last port, which is done.
    fn close(&mut self, port: usize) -> Result<(), Memory>
        requires { port < length self.old.marks.items }
        ensures marks { self.new.marks.items ≡ slice_set self.old.marks.items port Mark.Done }
        ensures path { self.new.path.items ≡ take (length self.old.path.items - 1) self.old.path.items }
        ensures left { self.new.left.items ≡ self.old.left.items }
        ensures order { IfOk result (λ _. self.new.order.items ≡ self.old.order.items ++ port ∷ []) }
    {
        self.marks[port] = Mark::Done;
        let _last = self.path.pop();
        self.order.push(port)?;
        Ok(())
    }
}

/// The path from the port on.
fn tail_from(alloc: Global, path: &[usize], port: usize) -> Result<Vec<usize>, Memory>
    requires { Contains path.now port }
    ensures { IfOk result (λ tail. IsTail path.now port tail.items) }
{
    let mut place = 0;
    while path[place] != port {
        place += 1;
    }
    Ok(Vec::from_slice(alloc, &path[place..])?)
}
