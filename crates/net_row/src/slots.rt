//! The slots of ports, and the tests of guards as truths.
ghost use Rattle.std.specs.Prelude.{◌≡◌, ◌-◌, IfOk, length};
ghost use Rattle.net_row.specs.inside.Ports.{AddsTest};

use hw_bits::Memory;
use net_sim::{FALSE, FIRST, Source, TRUE, Test};
use net_steps::{ProgramEnd, Steps, Truth, choose, compare, constant};
use std::alloc::Global;

/// The slots of the ports so far.
#[derive(Drop)]
pub struct PortSlots {
    pub slots: Vec<Option<u32>>,
}

impl PortSlots {
    ghost use Rattle.std.specs.Prelude.{◌≡◌, IfOk, None, Some, slice_get, replicate};
    ghost use Rattle.net_row.specs.inside.Ports.{AddsSource};

    /// No port has a slot.
    pub fn new(alloc: Global, count: usize) -> Result<PortSlots, Memory>
        ensures { IfOk result (λ ports. ports.slots.items ≡ replicate count None) }
    {
        let slots = vec![in alloc; None; count]?;
        Ok(PortSlots { slots })
    }

    /// The slot of a port.
    pub fn get(&self, port: usize) -> Result<u32, ProgramEnd>
        ensures { IfOk result (λ slot. slice_get self.now.slots.items port ≡ Some (Some slot)) }
    {
        match self.slots.as_slice().get(port) {
            Some(Some(slot)) => Ok(*slot),
            _ => Err(ProgramEnd::Unfit),
        }
    }

    /// The slot of a source.
    pub fn source(&self, steps: &mut Steps, source: Source) -> Result<u32, ProgramEnd>
        ensures { IfOk result (AddsSource steps.old steps.new self.now.slots.items source) }
    {
        match source {
            Source::Slot(port) => self.get(port),
            Source::Fixed(bits) => constant(steps, bits.value()),
        }
    }
}

/// The truths of the tests so far.
#[derive(Drop)]
pub struct Truths {
    pub of_tests: Vec<Option<Truth>>,
}

impl Truths {
    ghost use Rattle.std.specs.Prelude.{◌≡◌, IfOk, None, replicate};
    ghost use Rattle.net_row.specs.inside.Ports.{IsTruthAt};

    /// No test has a truth.
    pub fn new(alloc: Global, count: usize) -> Result<Truths, Memory>
        ensures { IfOk result (λ truths. truths.of_tests.items ≡ replicate count None) }
    {
        let of_tests = vec![in alloc; None; count]?;
        Ok(Truths { of_tests })
    }

    /// The truth of the test with this number, or of an end.
    pub fn get(&self, number: u32) -> Result<Truth, ProgramEnd>
        ensures { IfOk result (IsTruthAt self.now.of_tests.items number) }
    {
        if number == FALSE {
            return Ok(Truth::Fixed(false));
        }
        if number == TRUE {
            return Ok(Truth::Fixed(true));
        }
        match self.of_tests.as_slice().get((number - FIRST) as usize) {
            Some(Some(truth)) => Ok(*truth),
            _ => Err(ProgramEnd::Unfit),
        }
    }
}

/// The truth of a test, from those of the tests that it leads to.
pub fn test_truth(
    steps: &mut Steps,
    ports: &PortSlots,
    truths: &Truths,
    test: &Test,
) -> Result<Truth, ProgramEnd>
    ensures { IfOk result
        (AddsTest steps.old steps.new ports.now.slots.items truths.now.of_tests.items test.now) }
{
    let left = ports.source(steps, test.left)?;
    let right = ports.source(steps, test.right)?;
    let on = compare(steps, test.op, left, right)?;
    let yes = truths.get(test.yes)?;
    let no = truths.get(test.no)?;
    Ok(choose(steps, on, yes, no)?)
}

/// How many tests there are up to the one where a guard begins; none where it begins at an end.
pub fn tests_upto(start: u32) -> usize
    ensures { result ≡ start - 1 }
{
    start.saturating_sub(FIRST - 1) as usize
}

/// The places of the first tests of the guards, in the order of the assignments: each after the tests of the guards
/// before.
pub fn first_tests(alloc: Global, starts: &[u32]) -> Result<Vec<usize>, Memory>
    ensures { IfOk result (λ places. length places.items ≡ length starts.now) }
{
    let mut places = Vec::new(alloc);
    let mut next = 0;
    for start in starts {
        places.push(next)?;
        next = next.max(tests_upto(*start));
    }
    Ok(places)
}
