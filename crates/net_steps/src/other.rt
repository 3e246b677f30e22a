//! Cells that keep their state by themselves: memories, and multipliers that take several rows.
use crate::held::HeldState;
use crate::inputs::Places;

/// A cell that keeps its state by itself, the widths of its inputs, in bits, and the number of its outputs.
#[derive(Drop)]
pub struct Other {
    pub state: HeldState,
    pub widths: Vec<u8>,
    pub outputs: usize,
}

impl Other {
    ghost use Rattle.std.specs.Prelude.{◌≡◌, ◌<◌, length, All, slice_index};
    ghost use Rattle.hw_prims.specs.Meaning.{next_state, output_values};
    ghost use Rattle.hw_prims.specs.Table.{outputs_of};
    ghost use Rattle.net_steps.specs.Gathered.{gathered};
    ghost use Rattle.net_steps.specs.Others.{IsNarrow};

    /// The value of an output in this row, where its inputs are in these slots.
    #[inline(always)]
    pub fn output(&self, output: usize, places: Places, slots: &[u64]) -> u64
        requires narrow { IsNarrow self.now.state self.now.widths.items }
        requires output { output < length (outputs_of self.now.state.prim) }
        requires places { All (λ place. place < length slots.now) places }
        ensures { result
            ≡ slice_index (output_values self.now.state.prim self.now.state.state (gathered slots.now places self.now.widths.items)) output }
    {
        self.state
            .output(output, self.widths.as_slice(), places, slots)
    }

    /// The edge that ends a row in which its inputs are in these slots.
    pub fn step(&mut self, places: Places, slots: &[u64])
        requires narrow { IsNarrow self.old.state self.old.widths.items }
        requires places { All (λ place. place < length slots.now) places }
        ensures prim { self.new.state.prim ≡ self.old.state.prim }
        ensures state { self.new.state.state
            ≡ next_state self.old.state.prim self.old.state.state (gathered slots.now places self.old.widths.items) }
        ensures widths { self.new.widths ≡ self.old.widths }
        ensures outputs { self.new.outputs ≡ self.old.outputs }
    {
        self.state.step(self.widths.as_slice(), places, slots);
    }
}
