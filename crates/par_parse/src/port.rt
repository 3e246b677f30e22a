//! Ports of a component, from terminals.
ghost use Rattle.std.specs.Prelude.{◌≡◌, [], ◌∷◌, ◌++◌, List, map, IfOk};
ghost use Rattle.hw_grammar.specs.declared.sort.Sort.TheVariants as Sort;
ghost use Rattle.hw_grammar.specs.Reading.{GivesNamed, with_front, listed, list_tail};
ghost use Rattle.hw_names.specs.Name.{Text};
ghost use Rattle.par_parse.specs.Grammar.{interfaces_of, data_of};
ghost use Rattle.par_parse.specs.Tree.{interface_tree, port_tree};
ghost use Rattle.par_parse.specs.inside.Inputs.{input_tree};
ghost use Rattle.par_parse.specs.inside.Reading.{placed_at, port_at, interface_at, input_at, input_list_at, inputs_at, outputs_at, ports_at};

use crate::expression::read_expression;
use crate::name::read_indexed;
use crate::time::read_time;
use crate::tree::{ParamGo, ParamPort};
use hw_grammar::{ReadEnd, Sort, Terminal, read_name, read_one, starts};
use std::alloc::{AllocError, Global};

/// An interface port or a data input.
#[derive(Drop)]
pub enum ParamInput {
    Interface(ParamGo),
    Data(ParamPort),
}

/// The interface ports and the data inputs of a component.
#[derive(Drop)]
pub struct Inputs {
    pub gos: Vec<ParamGo>,
    pub ins: Vec<ParamPort>,
}

impl Inputs {
    /// One input more, at the end of its list.
    fn add(&mut self, input: ParamInput) -> Result<(), AllocError>
        ensures { IfOk result (λ done. (names : List Text) →
            (map (interface_tree names) self.new.gos.items ≡ map (interface_tree names) self.old.gos.items ++ interfaces_of (input_tree names input ∷ []))
            × (map (port_tree names) self.new.ins.items ≡ map (port_tree names) self.old.ins.items ++ data_of (input_tree names input ∷ []))) }
    {
        match input {
            ParamInput::Interface(port) => {
                self.gos.push(port)?;
                Ok(())
            }
            ParamInput::Data(port) => {
                self.ins.push(port)?;
                Ok(())
            }
        }
    }
}

/// The ports of a component.
#[derive(Drop)]
pub struct Ports {
    pub inputs: Inputs,
    pub outs: Vec<ParamPort>,
}

/// What follows the `@` of a data port: `"[" time "," time "]" NAME ["#" atom] ":" expr`.
#[tactic(auto, unfolding(crate::specs::inside::Reading::placed_at))]
fn read_placed(alloc: Global, ts: &[Terminal]) -> Result<(ParamPort, &[Terminal]), ReadEnd<'_>>
    ensures { GivesNamed (λ names x. (port_tree names x.0, x.1.now)) result (λ names. placed_at names ts.now) }
{
    let (_, rest) = read_one(ts, Sort::LeftBracket)?;
    let (from, rest) = read_time(alloc, rest)?;
    let (_, rest) = read_one(rest, Sort::Comma)?;
    let (to, rest) = read_time(alloc, rest)?;
    let (_, rest) = read_one(rest, Sort::RightBracket)?;
    let (name, rest) = read_indexed(alloc, rest)?;
    let (_, rest) = read_one(rest, Sort::Colon)?;
    let (width, rest) = read_expression(alloc, rest)?;
    let port = ParamPort {
        from,
        to,
        name,
        width,
    };
    Ok((port, rest))
}

/// A data port.
#[tactic(auto, unfolding(crate::specs::inside::Reading::port_at))]
fn read_port(alloc: Global, ts: &[Terminal]) -> Result<(ParamPort, &[Terminal]), ReadEnd<'_>>
    ensures { GivesNamed (λ names x. (port_tree names x.0, x.1.now)) result (λ names. port_at names ts.now) }
{
    let (_, rest) = read_one(ts, Sort::At)?;
    let (port, rest) = read_placed(alloc, rest)?;
    Ok((port, rest))
}

/// What follows `"@" "interface"`: `"[" NAME "]" NAME ["#" atom] ":" expr`.
#[tactic(auto, unfolding(crate::specs::inside::Reading::interface_at))]
fn read_interface(alloc: Global, ts: &[Terminal]) -> Result<(ParamGo, &[Terminal]), ReadEnd<'_>>
    ensures { GivesNamed (λ names x. (interface_tree names x.0, x.1.now)) result (λ names. interface_at names ts.now) }
{
    let (_, rest) = read_one(ts, Sort::LeftBracket)?;
    let (event, rest) = read_name(rest)?;
    let (_, rest) = read_one(rest, Sort::RightBracket)?;
    let (name, rest) = read_indexed(alloc, rest)?;
    let (_, rest) = read_one(rest, Sort::Colon)?;
    let (width, rest) = read_expression(alloc, rest)?;
    Ok((ParamGo { event, name, width }, rest))
}

/// An interface port or a data input.
#[tactic(auto, unfolding(crate::specs::inside::Reading::input_at))]
fn read_input(alloc: Global, ts: &[Terminal]) -> Result<(ParamInput, &[Terminal]), ReadEnd<'_>>
    ensures { GivesNamed (λ names x. (input_tree names x.0, x.1.now)) result (λ names. input_at names ts.now) }
{
    let (_, rest) = read_one(ts, Sort::At)?;
    if starts(rest, Sort::Interface) {
        let (_, rest) = read_one(rest, Sort::Interface)?;
        let (port, rest) = read_interface(alloc, rest)?;
        Ok((ParamInput::Interface(port), rest))
    } else {
        let (port, rest) = read_placed(alloc, rest)?;
        Ok((ParamInput::Data(port), rest))
    }
}

/// The inputs of `front`, and those that follow, each after a comma; perhaps one comma more.
fn more_inputs<'a>(
    alloc: Global,
    front: Vec<ParamInput>,
    ts: &'a [Terminal],
) -> Result<(Vec<ParamInput>, &'a [Terminal]), ReadEnd<'a>>
    ensures { GivesNamed (λ names x. (map (input_tree names) x.0.items, x.1.now)) result
        (λ names. with_front (map (input_tree names) front.items) (list_tail Sort.Comma (Sort.At ∷ []) (input_at names) ts.now)) }
{
    let mut all = front;
    let mut rest = ts;
    // Each round takes a terminal at least.
    for _ in 0..ts.len() {
        if !starts(rest, Sort::Comma) {
            return Ok((all, rest));
        }
        let (_, mid) = read_one(rest, Sort::Comma)?;
        if !starts(mid, Sort::At) {
            return Ok((all, mid));
        }
        let (next, after) = read_input(alloc, mid)?;
        all.push(next)?;
        rest = after;
    }
    if starts(rest, Sort::Comma) {
        Err(ReadEnd::Refused(rest))
    } else {
        Ok((all, rest))
    }
}

/// `[iport {"," iport} [","]]`
fn listed_inputs(
    alloc: Global,
    ts: &[Terminal],
) -> Result<(Vec<ParamInput>, &[Terminal]), ReadEnd<'_>>
    ensures { GivesNamed (λ names x. (map (input_tree names) x.0.items, x.1.now)) result (λ names. listed Sort.Comma (Sort.At ∷ []) (input_at names) ts.now) }
{
    let mut all = Vec::new(alloc);
    if starts(ts, Sort::At) {
        let (first, rest) = read_input(alloc, ts)?;
        all.push(first)?;
        more_inputs(alloc, all, rest)
    } else {
        Ok((all, ts))
    }
}

/// `"(" [iport {"," iport} [","]] ")"`, in text order.
#[tactic(auto, unfolding(crate::specs::inside::Reading::input_list_at))]
fn read_input_list(
    alloc: Global,
    ts: &[Terminal],
) -> Result<(Vec<ParamInput>, &[Terminal]), ReadEnd<'_>>
    ensures { GivesNamed (λ names x. (map (input_tree names) x.0.items, x.1.now)) result (λ names. input_list_at names ts.now) }
{
    let (_, rest) = read_one(ts, Sort::LeftParen)?;
    let (inputs, rest) = listed_inputs(alloc, rest)?;
    let (_, rest) = read_one(rest, Sort::RightParen)?;
    Ok((inputs, rest))
}

/// The interface ports and the data inputs among these.
fn split(alloc: Global, inputs: Vec<ParamInput>) -> Result<Inputs, AllocError>
    ensures gos { IfOk result (λ parts. (names : List Text)
        → map (interface_tree names) parts.gos.items ≡ interfaces_of (map (input_tree names) inputs.items)) }
    ensures ins { IfOk result (λ parts. (names : List Text)
        → map (port_tree names) parts.ins.items ≡ data_of (map (input_tree names) inputs.items)) }
{
    let mut parts = Inputs {
        gos: Vec::new(alloc),
        ins: Vec::new(alloc),
    };
    for input in inputs {
        parts.add(input)?;
    }
    Ok(parts)
}

/// `"(" [iport {"," iport} [","]] ")"`
#[tactic(auto, unfolding(crate::specs::inside::Reading::inputs_at))]
fn read_inputs(alloc: Global, ts: &[Terminal]) -> Result<(Inputs, &[Terminal]), ReadEnd<'_>>
    ensures { GivesNamed (λ names x. ((map (interface_tree names) x.0.gos.items, map (port_tree names) x.0.ins.items), x.1.now)) result
        (λ names. inputs_at names ts.now) }
{
    let (inputs, rest) = read_input_list(alloc, ts)?;
    Ok((split(alloc, inputs)?, rest))
}

/// The ports of `front`, and those that follow, each after a comma; perhaps one comma more.
fn more_ports<'a>(
    alloc: Global,
    front: Vec<ParamPort>,
    ts: &'a [Terminal],
) -> Result<(Vec<ParamPort>, &'a [Terminal]), ReadEnd<'a>>
    ensures { GivesNamed (λ names x. (map (port_tree names) x.0.items, x.1.now)) result
        (λ names. with_front (map (port_tree names) front.items) (list_tail Sort.Comma (Sort.At ∷ []) (port_at names) ts.now)) }
{
    let mut all = front;
    let mut rest = ts;
    // Each round takes a terminal at least.
    for _ in 0..ts.len() {
        if !starts(rest, Sort::Comma) {
            return Ok((all, rest));
        }
        let (_, mid) = read_one(rest, Sort::Comma)?;
        if !starts(mid, Sort::At) {
            return Ok((all, mid));
        }
        let (next, after) = read_port(alloc, mid)?;
        all.push(next)?;
        rest = after;
    }
    if starts(rest, Sort::Comma) {
        Err(ReadEnd::Refused(rest))
    } else {
        Ok((all, rest))
    }
}

/// `[port {"," port} [","]]`
fn listed_ports(
    alloc: Global,
    ts: &[Terminal],
) -> Result<(Vec<ParamPort>, &[Terminal]), ReadEnd<'_>>
    ensures { GivesNamed (λ names x. (map (port_tree names) x.0.items, x.1.now)) result (λ names. listed Sort.Comma (Sort.At ∷ []) (port_at names) ts.now) }
{
    let mut all = Vec::new(alloc);
    if starts(ts, Sort::At) {
        let (first, rest) = read_port(alloc, ts)?;
        all.push(first)?;
        more_ports(alloc, all, rest)
    } else {
        Ok((all, ts))
    }
}

/// `"(" [port {"," port} [","]] ")"`
#[tactic(auto, unfolding(crate::specs::inside::Reading::outputs_at))]
fn read_outputs(
    alloc: Global,
    ts: &[Terminal],
) -> Result<(Vec<ParamPort>, &[Terminal]), ReadEnd<'_>>
    ensures { GivesNamed (λ names x. (map (port_tree names) x.0.items, x.1.now)) result (λ names. outputs_at names ts.now) }
{
    let (_, rest) = read_one(ts, Sort::LeftParen)?;
    let (ports, rest) = listed_ports(alloc, rest)?;
    let (_, rest) = read_one(rest, Sort::RightParen)?;
    Ok((ports, rest))
}

/// `"(" [iport {"," iport} [","]] ")" "->" "(" [port {"," port} [","]] ")"`
#[tactic(auto, unfolding(crate::specs::inside::Reading::ports_at))]
pub fn read_ports(alloc: Global, ts: &[Terminal]) -> Result<(Ports, &[Terminal]), ReadEnd<'_>>
    ensures { GivesNamed (λ names x. (
      ((map (interface_tree names) x.0.inputs.gos.items, map (port_tree names) x.0.inputs.ins.items), map (port_tree names) x.0.outs.items),
      x.1.now,
    )) result
        (λ names. ports_at names ts.now) }
{
    let (inputs, rest) = read_inputs(alloc, ts)?;
    let (_, rest) = read_one(rest, Sort::Arrow)?;
    let (outs, rest) = read_outputs(alloc, rest)?;
    Ok((Ports { inputs, outs }, rest))
}
