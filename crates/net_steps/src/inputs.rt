//! The inputs of a cell that keeps its state by itself, from their slots.
ghost use Rattle.std.specs.Prelude.{◌≡◌, ◌<◌, ◌≤◌, length, take, All};
ghost use Rattle.hw_bits.specs.Values.{values_of, widths_of};
ghost use Rattle.hw_bits.specs.declared.bits.TheConstants.{MAX_WIDTH};
ghost use Rattle.net_steps.specs.Gathered.{gathered};

use hw_bits::Bits;

/// The most inputs that such a cell has.
pub const INPUTS: usize = 4;

/// The slots of its inputs; past the last they say nothing.
pub type Places = [u32; INPUTS];

/// The inputs of these widths, from their slots.
pub fn gather(widths: &[u8], places: Places, slots: &[u64]) -> [Bits; INPUTS]
    requires count { length widths.now ≤ INPUTS }
    requires widths { All (λ width. (1 ≤ width) × (width ≤ MAX_WIDTH)) widths.now }
    requires places { All (λ place. place < length slots.now) places }
    ensures values { values_of (take (length widths.now) result) ≡ gathered slots.now places widths.now }
    ensures widths { widths_of (take (length widths.now) result) ≡ widths.now }
{
    let mut inputs = [Bits::wrap(0, 1); INPUTS];
    for (number, width) in widths.iter().enumerate() {
        let value = slots[places[number] as usize];
        inputs[number] = Bits::wrap(value as u128, *width);
    }
    inputs
}
