//! The flow of a component.
ghost use Rattle.std.specs.Prelude.{◌≡◌, ◌<◌, Some, length, slice_get, IfOk};
ghost use Rattle.hw_bits.specs.Values.{values_of, widths_of};
ghost use Rattle.fil_ast.specs.Flow.{flow};
ghost use Rattle.fil_ast.specs.Tree.{Component, Design, design_of};
ghost use Rattle.fil_flow.specs.Dataflow.{IsDataflowOf};
ghost use Rattle.fil_flow.specs.Shown.{port_widths};

use crate::machine::run;
use crate::plan::Plan;
use crate::plans::plans_of;
use fil_ast::FilOk;
use hw_bits::{Bits, Memory};
use std::alloc::Global;

/// A component of a design, ready to be run on values of its inputs, any number of times.
#[derive(Drop)]
pub struct Dataflow {
    plans: Vec<Plan>,
    comp: usize,
}

impl Dataflow {
    /// The dataflow of the component with this number.
    pub fn new(alloc: Global, ok: &FilOk, comp: usize) -> Result<Dataflow, Memory>
        requires { comp < length (design_of ok.now) }
        ensures { (c : Component) → slice_get (design_of ok.now) comp ≡ Some c → IfOk result (IsDataflowOf (design_of ok.now) c) }
    {
        // Read for what it ensures: components have different names.
        let _design = ok.design();
        let plans = plans_of(alloc, ok, comp + 1)?;
        Ok(Dataflow { plans, comp })
    }

    /// The values of the component's outputs, in their order, on values of its inputs. Each invocation under it is
    /// evaluated once, for each time that its component is.
    pub fn values(&self, alloc: Global, inputs: &[Bits]) -> Result<Vec<Bits>, Memory>
        requires { (comps : Design) × (c : Component) × IsDataflowOf comps c self.now × (widths_of inputs.now ≡ port_widths c.ins) }
        ensures values { (comps : Design) (c : Component) → IsDataflowOf comps c self.now → widths_of inputs.now ≡ port_widths c.ins
            → IfOk result (λ outs. values_of outs.items ≡ flow comps c (values_of inputs.now)) }
        ensures widths { (comps : Design) (c : Component) → IsDataflowOf comps c self.now → widths_of inputs.now ≡ port_widths c.ins
            → IfOk result (λ outs. widths_of outs.items ≡ port_widths c.outs) }
    {
        let inputs = Vec::from_slice(alloc, inputs)?;
        run(alloc, &self.plans, self.comp, inputs)
    }
}

/// The values of the outputs of the component with this number, in their order, on values of its inputs. For
/// more than one list of values, a `Dataflow` makes the component ready once.
pub fn flow(alloc: Global, ok: &FilOk, comp: usize, inputs: &[Bits]) -> Result<Vec<Bits>, Memory>
    requires comp { comp < length (design_of ok.now) }
    requires inputs { (c : Component) → slice_get (design_of ok.now) comp ≡ Some c → widths_of inputs.now ≡ port_widths c.ins }
    ensures values { (c : Component) → slice_get (design_of ok.now) comp ≡ Some c
        → IfOk result (λ outs. values_of outs.items ≡ flow (design_of ok.now) c (values_of inputs.now)) }
    ensures widths { (c : Component) → slice_get (design_of ok.now) comp ≡ Some c → IfOk result (λ outs. widths_of outs.items ≡ port_widths c.outs) }
{
    let dataflow = Dataflow::new(alloc, ok, comp)?;
    dataflow.values(alloc, inputs)
}
