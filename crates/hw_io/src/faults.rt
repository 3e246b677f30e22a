//! The one answer of a read or a write that failed, and counts that never fall.
ghost use Rattle.std.specs.Prelude.{◌≡◌, ◌+◌, ◌-◌, ◌^◌, ◌≤◌, ◌↔◌, min, Contains, IsTrue};
ghost use Rattle.hw_io.specs.Faults.{Rose};

/// A read or a write failed. The count of faults of the file or the sink tells that it did.
#[derive(Clone, Copy, Debug, PartialEq, Eq)]
pub struct Failed;

/// One more, up to the greatest count.
pub(crate) fn raised(count: u64) -> u64
    ensures value { result ≡ min (count + 1) (2 ^ 64 - 1) }
    ensures rose { Rose count result }
    ensures never_falls { count ≤ result }
{
    count.saturating_add(1)
}

/// Whether a call of this number is to fail.
pub(crate) fn is_to_fail(fails: &[u64], call: u64) -> bool
    ensures { IsTrue result ↔ Contains fails.now call }
{
    fails.contains(&call)
}
