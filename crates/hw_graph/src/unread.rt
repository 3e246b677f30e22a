//! How many of each port's reads a search has not looked at.
ghost use Rattle.std.specs.Prelude.{◌≡◌, ℕ, ◌<◌, ◌≤◌, [], length, slice_index, slice_index_or, IfOk, IfNone, IfSome};
ghost use Rattle.hw_graph.specs.inside.Unread.{AreUnread, TakesRead};

use crate::groups::Groups;
use hw_bits::Memory;
use std::alloc::Global;

/// How many reads each port has: none is looked at.
pub fn unread(alloc: Global, reads: &Groups) -> Result<Vec<usize>, Memory>
    ensures { IfOk result (λ left. AreUnread reads.now left.items) }
{
    let mut left = Vec::new(alloc);
    for port in 0..reads.len() {
        left.push(reads.get(port).len())?;
    }
    Ok(left)
}

/// Takes the next read of the port, the last first.
pub fn next_read(left: &mut Vec<usize>, reads: &Groups, port: usize) -> Option<usize>
    requires port { port < length reads.now }
    requires all { length left.old.items ≡ length reads.now }
    requires at_most { slice_index left.old.items port ≤ length (slice_index_or reads.now port []) }
    ensures none { IfNone result ((slice_index left.old.items port ≡ 0) × (left.new.items ≡ left.old.items)) }
    ensures some { IfSome result
        (λ read. TakesRead (slice_index_or reads.now port []) left.old.items port read left.new.items) }
{
    let unread = left[port].checked_sub(1)?;
    left[port] = unread;
    Some(reads.get(port)[unread])
}
