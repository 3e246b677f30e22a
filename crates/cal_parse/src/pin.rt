//! Ports of signatures, from terminals.
ghost use Rattle.std.specs.Prelude.{◌≡◌, [], ◌∷◌, List, map, IfOk};
ghost use Rattle.cal_ast.specs.Tree.{pin_tree};
ghost use Rattle.cal_parse.specs.Grammar.{is_dropped, inputs_from, outputs_from};
ghost use Rattle.cal_parse.specs.inside.Pins.{meant_tree};
ghost use Rattle.cal_parse.specs.inside.Reading.{pin_at, pin_set, inputs_at, outputs_at, maybe_outputs_at};
ghost use Rattle.hw_grammar.specs.declared.sort.Sort.TheVariants as Sort;
ghost use Rattle.hw_grammar.specs.Reading.{GivesNamed, with_front, list_tail, listed};
ghost use Rattle.hw_grammar.specs.Sort.{has};
ghost use Rattle.hw_names.specs.Name.{Text};

use crate::attribute::read_attributes;
use cal_ast::CalPin;
use hw_grammar::{ReadEnd, Sort, Special, Terminal, read_number, read_one, starts, starts_any};
use std::alloc::{AllocError, Global};

/// A port, and what its name means beside the grammar.
#[derive(Clone, Copy, Debug, PartialEq, Eq)]
pub struct MeantPin {
    pub special: Special,
    pub pin: CalPin,
}

/// Whether a port, a cell or a line of a group starts here.
pub fn starts_named(ts: &[Terminal]) -> bool
    ensures { result ≡ has pin_set ts.now }
{
    starts_any(ts, &[Sort::At, Sort::Name])
}

/// A port with its attributes, which are dropped.
#[tactic(auto, unfolding(crate::specs::inside::Reading::pin_at))]
fn read_pin(ts: &[Terminal]) -> Result<(MeantPin, &[Terminal]), ReadEnd<'_>>
    ensures { GivesNamed (λ names x. (meant_tree names x.0, x.1.now)) result (λ names. pin_at names ts.now) }
{
    let (_, rest) = read_attributes(ts)?;
    let (name, rest) = read_one(rest, Sort::Name)?;
    let (_, rest) = read_one(rest, Sort::Colon)?;
    let (width, rest) = read_number(rest)?;
    let pin = CalPin {
        name: name.name,
        width,
    };
    let special = name.special;
    Ok((MeantPin { special, pin }, rest))
}

/// The ports of `front`, and those that follow, each after a comma; perhaps one comma more.
fn more_pins<'a>(
    front: Vec<MeantPin>,
    ts: &'a [Terminal],
) -> Result<(Vec<MeantPin>, &'a [Terminal]), ReadEnd<'a>>
    ensures { GivesNamed (λ names x. (map (meant_tree names) x.0.items, x.1.now)) result
        (λ names. with_front (map (meant_tree names) front.items) (list_tail Sort.Comma pin_set (pin_at names) ts.now)) }
{
    let mut all = front;
    let mut rest = ts;
    // Each round takes a terminal at least.
    for _ in 0..ts.len() {
        if !starts(rest, Sort::Comma) {
            return Ok((all, rest));
        }
        let (_, mid) = read_one(rest, Sort::Comma)?;
        if !starts_named(mid) {
            return Ok((all, mid));
        }
        let (next, after) = read_pin(mid)?;
        all.push(next)?;
        rest = after;
    }
    if starts(rest, Sort::Comma) {
        Err(ReadEnd::Refused(rest))
    } else {
        Ok((all, rest))
    }
}

/// `[pins]`
fn listed_pins(alloc: Global, ts: &[Terminal]) -> Result<(Vec<MeantPin>, &[Terminal]), ReadEnd<'_>>
    ensures { GivesNamed (λ names x. (map (meant_tree names) x.0.items, x.1.now)) result (λ names. listed Sort.Comma pin_set (pin_at names) ts.now) }
{
    let mut all = Vec::new(alloc);
    if starts_named(ts) {
        let (first, rest) = read_pin(ts)?;
        all.push(first)?;
        more_pins(all, rest)
    } else {
        Ok((all, ts))
    }
}

/// Whether the name is that of an input which leaves no trace, `clk` or `reset`.
fn is_dropped(special: Special) -> bool
    ensures { result ≡ is_dropped special }
{
    matches!(special, Special::Clock | Special::Reset)
}

/// The ports but those named `clk` and `reset`.
fn inputs_of(alloc: Global, pins: &[MeantPin]) -> Result<Vec<CalPin>, AllocError>
    ensures { IfOk result (λ inputs. (names : List Text) → map (pin_tree names) inputs.items ≡ inputs_from (map (meant_tree names) pins.now)) }
{
    let mut inputs = Vec::new(alloc);
    for meant in pins {
        if !is_dropped(meant.special) {
            inputs.push(meant.pin)?;
        }
    }
    Ok(inputs)
}

/// The ports, whatever they are named.
fn outputs_of(alloc: Global, pins: &[MeantPin]) -> Result<Vec<CalPin>, AllocError>
    ensures { IfOk result (λ outputs. (names : List Text) → map (pin_tree names) outputs.items ≡ outputs_from (map (meant_tree names) pins.now)) }
{
    let mut outputs = Vec::new(alloc);
    for meant in pins {
        outputs.push(meant.pin)?;
    }
    Ok(outputs)
}

/// `"(" [pins] ")"` of inputs
#[tactic(auto, unfolding(crate::specs::inside::Reading::inputs_at))]
pub fn read_inputs(
    alloc: Global,
    ts: &[Terminal],
) -> Result<(Vec<CalPin>, &[Terminal]), ReadEnd<'_>>
    ensures { GivesNamed (λ names x. (map (pin_tree names) x.0.items, x.1.now)) result (λ names. inputs_at names ts.now) }
{
    let (_, rest) = read_one(ts, Sort::LeftParen)?;
    let (pins, rest) = listed_pins(alloc, rest)?;
    let inputs = inputs_of(alloc, &pins)?;
    let (_, rest) = read_one(rest, Sort::RightParen)?;
    Ok((inputs, rest))
}

/// `"(" [pins] ")"` of outputs
#[tactic(auto, unfolding(crate::specs::inside::Reading::outputs_at))]
fn read_outputs(alloc: Global, ts: &[Terminal]) -> Result<(Vec<CalPin>, &[Terminal]), ReadEnd<'_>>
    ensures { GivesNamed (λ names x. (map (pin_tree names) x.0.items, x.1.now)) result (λ names. outputs_at names ts.now) }
{
    let (_, rest) = read_one(ts, Sort::LeftParen)?;
    let (pins, rest) = listed_pins(alloc, rest)?;
    let outputs = outputs_of(alloc, &pins)?;
    let (_, rest) = read_one(rest, Sort::RightParen)?;
    Ok((outputs, rest))
}

/// `["->" "(" [pins] ")"]`
#[tactic(auto, unfolding(crate::specs::inside::Reading::maybe_outputs_at))]
pub fn outputs_or_none(
    alloc: Global,
    ts: &[Terminal],
) -> Result<(Vec<CalPin>, &[Terminal]), ReadEnd<'_>>
    ensures { GivesNamed (λ names x. (map (pin_tree names) x.0.items, x.1.now)) result (λ names. maybe_outputs_at names ts.now) }
{
    if starts(ts, Sort::Arrow) {
        let (_, rest) = read_one(ts, Sort::Arrow)?;
        let (outputs, rest) = read_outputs(alloc, rest)?;
        Ok((outputs, rest))
    } else {
        Ok((Vec::new(alloc), ts))
    }
}
