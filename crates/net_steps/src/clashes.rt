//! Assignments that drive one port at once.
ghost use Rattle.std.specs.Prelude.{◌≡◌, ◌<◌, length, All};
ghost use Rattle.net_steps.specs.Conflicts.{IsLeastClash};

use hw_graph::lesser_of;
use hw_names::Names;

/// A port has a Conflict where both slots are 1.
#[derive(Clone, Copy, Debug)]
pub struct Clash {
    pub first: u32,
    pub second: u32,
    pub port: usize,
}

impl Clash {
    ghost use Rattle.std.specs.Prelude.{◌≡◌, ◌<◌, length};
    ghost use Rattle.net_steps.specs.Drivers.{is_clash};

    /// Whether both slots are 1.
    #[inline(always)]
    fn is_on(&self, slots: &[u64]) -> bool
        requires first { self.now.first < length slots.now }
        requires second { self.now.second < length slots.now }
        ensures { result ≡ is_clash slots.now self.now }
    {
        slots[self.first as usize] == 1 && slots[self.second as usize] == 1
    }
}

/// The least port that has a Conflict, by the bytes of its name.
pub fn find_conflict(names: &Names, clashes: &[Clash], slots: &[u64]) -> Option<usize>
    requires { All (λ clash. (clash.first < length slots.now) × (clash.second < length slots.now) × (clash.port < length names.now)) clashes.now }
    ensures { IsLeastClash names.now clashes.now slots.now result }
{
    let mut found = None;
    for clash in clashes {
        if clash.is_on(slots) {
            found = Some(lesser_of(names, found, clash.port));
        }
    }
    found
}
