//! Runs a plan. Components that wait for another's outputs stand in a list, so that no depth of components takes stack.
ghost use Rattle.std.specs.Prelude.{◌≡◌, ◌<◌, ◌≤◌, ℕ, List, [], ◌∷◌, ◌++◌, Some, map, reverse, slice_get, IsSome, IfOk};
ghost use Rattle.hw_bits.specs.Values.{values_of, widths_of};
ghost use Rattle.fil_flow.specs.inside.Frames.{AreFrom, CanRun, RunStands, StandsOn, WaitFor, given_over, steps_left, value_of_run, waiting_cost};
ghost use Rattle.fil_flow.specs.Plans.{HaveWidths, IsFlow, PlansFit, Shape, source_value, source_width};

use crate::plan::{Call, Callee, Plan, Source};
use crate::primitive::primitive_flow;
use hw_bits::{Bits, Memory};
use std::alloc::Global;

/// A component under way: its calls that are left, its outputs, and the values in its places so far. One that
/// waits is without the call whose outputs it waits for.
#[derive(Drop)]
struct Frame<'a> {
    calls: &'a [Call],
    outs: &'a [Source],
    values: Vec<Bits>,
}

/// What a step comes to: the component that is under way next, or the first one's outputs.
enum Progress<'a> {
    Under(Frame<'a>),
    Done(Vec<Bits>),
}

/// The value from a source.
fn value_at(values: &[Bits], source: Source) -> Bits
    requires { IsSome (source_width (widths_of values.now) source) }
    ensures value { result.value ≡ source_value (values_of values.now) source }
    ensures width { source_width (widths_of values.now) source ≡ Some result.width }
{
    match source {
        Source::Place(place) => values[place],
        Source::Literal(bits) => bits,
    }
}

/// Adds the values from sources to those found, in their order.
fn append_values(values: &[Bits], sources: &[Source], found: &mut Vec<Bits>) -> Result<(), Memory>
    requires { (widths : List ℕ) × HaveWidths (widths_of values.now) sources.now widths }
    ensures { IfOk result (λ _. (added : List Bits) × (found.new.items ≡ found.old.items ++ added) × AreFrom values.now sources.now added) }
{
    for source in sources {
        found.push(value_at(values, *source))?;
    }
    Ok(())
}

/// The values from sources, in their order.
fn values_at(alloc: Global, values: &[Bits], sources: &[Source]) -> Result<Vec<Bits>, Memory>
    requires { (widths : List ℕ) × HaveWidths (widths_of values.now) sources.now widths }
    ensures { IfOk result (λ found. AreFrom values.now sources.now found.items) }
{
    let mut found = Vec::new(alloc);
    append_values(values, sources, &mut found)?;
    Ok(found)
}

/// The component of a plan, of which nothing is done.
fn start<'a>(plan: &'a Plan, inputs: Vec<Bits>) -> Frame<'a>
    ensures calls { result.calls.now ≡ plan.now.calls.items }
    ensures outs { result.outs.now ≡ plan.now.outs.items }
    ensures values { result.values ≡ inputs }
{
    Frame {
        calls: &plan.calls,
        outs: &plan.outs,
        values: inputs,
    }
}

/// The component that waits goes on with the outputs of one that is done.
fn with_outputs<'a>(mut frame: Frame<'a>, done: &Frame) -> Result<Frame<'a>, Memory>
    requires { (widths : List ℕ) × HaveWidths (widths_of done.now.values.items) done.now.outs.now widths }
    ensures calls { IfOk result (λ next. next.calls ≡ frame.entry.calls) }
    ensures outs { IfOk result (λ next. next.outs ≡ frame.entry.outs) }
    ensures values { IfOk result (λ next. (added : List Bits) × (next.values.items ≡ frame.entry.values.items ++ added)
        × AreFrom done.now.values.items done.now.outs.now added) }
{
    append_values(&done.values, done.outs, &mut frame.values)?;
    Ok(frame)
}

/// A component is done: the one that waits for its outputs goes on.
fn finish<'a>(
    alloc: Global,
    done: Frame<'a>,
    waiting: &mut Vec<Frame<'a>>,
) -> Result<Progress<'a>, Memory>
    requires { (widths : List ℕ) × HaveWidths (widths_of done.values.items) done.outs.now widths }
    ensures values { (flow : ℕ → List ℕ → List ℕ) → IfOk result (λ next. value_of_run flow waiting.new.items next
        ≡ given_over flow (reverse waiting.old.items) (map (source_value (values_of done.entry.values.items)) done.entry.outs.now)) }
    ensures widths { (shapes : List Shape) (outs wanted : List ℕ) → HaveWidths (widths_of done.entry.values.items) done.entry.outs.now outs
        → WaitFor shapes (reverse waiting.old.items) outs wanted → IfOk result (RunStands shapes waiting.new.items wanted) }
    ensures nearer { (plans : List Plan) → IfOk result (λ next. steps_left plans waiting.new.items next ≤ waiting_cost plans waiting.old.items) }
{
    match waiting.pop() {
        Some(frame) => Ok(Progress::Under(with_outputs(frame, &done)?)),
        None => Ok(Progress::Done(values_at(alloc, &done.values, done.outs)?)),
    }
}

/// One step of the component that is under way: its next call begins, or it is done. A primitive's call is
/// done at once; for a component's outputs the caller waits.
fn step<'a>(
    alloc: Global,
    plans: &'a [Plan],
    mut top: Frame<'a>,
    waiting: &mut Vec<Frame<'a>>,
) -> Result<Progress<'a>, Memory>
    requires { CanRun plans.now waiting.old.items top }
    ensures values { (shapes : List Shape) (wanted : List ℕ) (flow : ℕ → List ℕ → List ℕ)
        → PlansFit plans.now shapes → StandsOn shapes waiting.old.items wanted top.entry → IsFlow plans.now shapes flow
        → IfOk result (λ next. value_of_run flow waiting.new.items next ≡ value_of_run flow waiting.old.items (Progress.Under top.entry)) }
    ensures widths { (shapes : List Shape) (wanted : List ℕ) → PlansFit plans.now shapes → StandsOn shapes waiting.old.items wanted top.entry
        → IfOk result (RunStands shapes waiting.new.items wanted) }
    ensures nearer { IfOk result (λ next. steps_left plans.now waiting.new.items next < steps_left plans.now waiting.old.items (Progress.Under top.entry)) }
{
    match top.calls {
        [call, calls @ ..] => {
            let args = values_at(alloc, &top.values, &call.args)?;
            top.calls = calls;
            match call.callee {
                Callee::Primitive(prim) => {
                    top.values.push(primitive_flow(prim, &args))?;
                    Ok(Progress::Under(top))
                }
                Callee::Component(number) => {
                    waiting.push(top)?;
                    Ok(Progress::Under(start(&plans[number], args)))
                }
            }
        }
        [] => finish(alloc, top, waiting),
    }
}

/// The outputs of the plan with this number on values of its inputs. Each call is done once, and its outputs
/// are kept while its component is under way.
pub(crate) fn run(
    alloc: Global,
    plans: &[Plan],
    number: usize,
    inputs: Vec<Bits>,
) -> Result<Vec<Bits>, Memory>
    requires { (shapes : List Shape) × (shape : Shape) × PlansFit plans.now shapes × (slice_get shapes number ≡ Some shape) × (widths_of inputs.items ≡ shape.ins) }
    ensures values { (shapes : List Shape) (shape : Shape) (flow : ℕ → List ℕ → List ℕ)
        → PlansFit plans.now shapes → slice_get shapes number ≡ Some shape → widths_of inputs.items ≡ shape.ins → IsFlow plans.now shapes flow
        → IfOk result (λ outs. values_of outs.items ≡ flow number (values_of inputs.items)) }
    ensures widths { (shapes : List Shape) (shape : Shape) → PlansFit plans.now shapes → slice_get shapes number ≡ Some shape → widths_of inputs.items ≡ shape.ins
        → IfOk result (λ outs. widths_of outs.items ≡ shape.outs) }
{
    let mut waiting = Vec::new(alloc);
    let mut top = start(&plans[number], inputs);
    loop {
        match step(alloc, plans, top, &mut waiting)? {
            Progress::Under(frame) => top = frame,
            Progress::Done(outs) => return Ok(outs),
        }
    }
}
