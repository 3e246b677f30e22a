//! The edge that ends a row.
ghost use Rattle.std.specs.Prelude.{◌≡◌, ◌<◌, length, map, All, slice_index};
ghost use Rattle.net_steps.specs.Edge.{AreSteppedOthers};
ghost use Rattle.net_steps.specs.Others.{AreNarrow};

use crate::inputs::Places;
use crate::other::Other;

/// What is kept after a row: for each value the one in its slot.
pub fn step_kept(places: &[u32], slots: &[u64], kept: &mut [u64])
    requires count { length places.now ≡ length kept.old }
    requires places { All (λ place. place < length slots.now) places.now }
    ensures { kept.new ≡ map (slice_index slots.now) places.now }
{
    for (number, place) in places.iter().enumerate() {
        kept[number] = slots[*place as usize];
    }
}

/// The cells that keep their state by themselves, after a row in which the inputs of each are in the slots of its place.
pub fn step_others(places: &[Places], slots: &[u64], others: &mut [Other])
    requires narrow { AreNarrow others.old }
    requires count { length places.now ≡ length others.old }
    requires places { All (λ slots_of. All (λ place. place < length slots.now) slots_of) places.now }
    ensures { AreSteppedOthers places.now slots.now others.old others.new }
{
    for (number, inputs) in places.iter().enumerate() {
        others[number].step(*inputs, slots);
    }
}
