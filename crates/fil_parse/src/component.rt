//! Components and whole files, from terminals.
ghost use Rattle.std.specs.Prelude.{◌≡◌, [], ◌∷◌, List, map, IfOk};
ghost use Rattle.hw_names.specs.Name.{Text};
ghost use Rattle.hw_grammar.specs.declared.sort.Sort.TheVariants as Sort;
ghost use Rattle.hw_grammar.specs.Reading.{Gives, with_front, many, whole};
ghost use Rattle.fil_ast.specs.Tree.{interface_tree, port_tree, component_tree};
ghost use Rattle.fil_parse.specs.Grammar.{interfaces_of, data_of};
ghost use Rattle.fil_parse.specs.inside.Inputs.{input_tree};
ghost use Rattle.fil_parse.specs.inside.Reading.{component_at, import_at, imports_at, file_at};

use crate::input::InputPort;
use crate::port::{read_events, read_inputs, read_outputs};
use crate::statement::read_body;
use fil_ast::{FilComp, FilPort, GoPort};
use hw_grammar::{ReadEnd, Sort, Terminal, read_name, read_one, starts};
use std::alloc::{AllocError, Global};

/// The interface ports among the inputs.
fn interfaces_of(alloc: Global, inputs: &[InputPort]) -> Result<Vec<GoPort>, AllocError>
    ghost names: { List Text }
    ensures { IfOk result (λ ports. map (interface_tree names) ports.items ≡ interfaces_of (map (input_tree names) inputs.now)) }
{
    let mut ports = Vec::new(alloc);
    for input in inputs {
        if let InputPort::Interface(port) = *input {
            ports.push(port)?;
        }
    }
    Ok(ports)
}

/// The data ports among the inputs.
fn data_of(alloc: Global, inputs: &[InputPort]) -> Result<Vec<FilPort>, AllocError>
    ghost names: { List Text }
    ensures { IfOk result (λ ports. map (port_tree names) ports.items ≡ data_of (map (input_tree names) inputs.now)) }
{
    let mut ports = Vec::new(alloc);
    for input in inputs {
        if let InputPort::Data(port) = *input {
            ports.push(port)?;
        }
    }
    Ok(ports)
}

/// A component.
#[tactic(auto, unfolding(crate::specs::inside::Reading::component_at))]
fn read_component(alloc: Global, ts: &[Terminal]) -> Result<(FilComp, &[Terminal]), ReadEnd<'_>>
    ghost names: { List Text }
    ensures { Gives (λ x. (component_tree names x.0, x.1.now)) result (component_at names ts.now) }
{
    let (_, rest) = read_one(ts, Sort::Comp)?;
    let (name, rest) = read_name(rest)?;
    let (events, rest) = read_events(alloc, rest)?;
    let (inputs, rest) = read_inputs(alloc, rest)?;
    let (_, rest) = read_one(rest, Sort::Arrow)?;
    let (outs, rest) = read_outputs(alloc, rest)?;
    let (body, rest) = read_body(alloc, rest)?;
    let comp = FilComp {
        name,
        events,
        gos: interfaces_of(alloc, &inputs)?,
        ins: data_of(alloc, &inputs)?,
        outs,
        body,
    };
    Ok((comp, rest))
}

/// What follows `"import" STRING ";"`.
#[tactic(auto, unfolding(crate::specs::inside::Reading::import_at))]
fn after_import(ts: &[Terminal]) -> Result<&[Terminal], ReadEnd<'_>>
    ensures { Gives (λ x. (tt, x.now)) result (import_at ts.now) }
{
    let (_, rest) = read_one(ts, Sort::Import)?;
    let (_, rest) = read_one(rest, Sort::Text)?;
    let (_, rest) = read_one(rest, Sort::Semicolon)?;
    Ok(rest)
}

/// What follows `{"import" STRING ";"}`.
fn after_imports(ts: &[Terminal]) -> Result<&[Terminal], ReadEnd<'_>>
    ensures { Gives (λ x. (tt, x.now)) result (imports_at ts.now) }
{
    let mut rest = ts;
    // Each round takes a terminal at least.
    for _ in 0..ts.len() {
        if !starts(rest, Sort::Import) {
            return Ok(rest);
        }
        rest = after_import(rest)?;
    }
    if starts(rest, Sort::Import) {
        Err(ReadEnd::Refused(rest))
    } else {
        Ok(rest)
    }
}

/// The components of `front`, and those that follow.
fn more_components<'a>(
    alloc: Global,
    front: Vec<FilComp>,
    ts: &'a [Terminal],
) -> Result<(Vec<FilComp>, &'a [Terminal]), ReadEnd<'a>>
    ghost names: { List Text }
    ensures { Gives (λ x. (map (component_tree names) x.0.items, x.1.now)) result
        (with_front (map (component_tree names) front.items) (many (Sort.Comp ∷ []) (component_at names) ts.now)) }
{
    let mut all = front;
    let mut rest = ts;
    // Each round takes a terminal at least.
    for _ in 0..ts.len() {
        if !starts(rest, Sort::Comp) {
            return Ok((all, rest));
        }
        let (next, after) = read_component(alloc, rest)?;
        all.push(next)?;
        rest = after;
    }
    if starts(rest, Sort::Comp) {
        Err(ReadEnd::Refused(rest))
    } else {
        Ok((all, rest))
    }
}

/// Imports, which are dropped, and components.
#[tactic(auto, unfolding(crate::specs::inside::Reading::file_at))]
fn read_file(alloc: Global, ts: &[Terminal]) -> Result<(Vec<FilComp>, &[Terminal]), ReadEnd<'_>>
    ghost names: { List Text }
    ensures { Gives (λ x. (map (component_tree names) x.0.items, x.1.now)) result (file_at names ts.now) }
{
    let rest = after_imports(ts)?;
    let mut all = Vec::new(alloc);
    let (first, rest) = read_component(alloc, rest)?;
    all.push(first)?;
    more_components(alloc, all, rest)
}

/// The components of a whole file.
pub fn whole_file(alloc: Global, ts: &[Terminal]) -> Result<Vec<FilComp>, ReadEnd<'_>>
    ghost names: { List Text }
    ensures { Gives (λ v. map (component_tree names) v.items) result (whole (file_at names ts.now)) }
{
    let (comps, rest) = read_file(alloc, ts)?;
    match rest {
        [] => Ok(comps),
        [_, ..] => Err(ReadEnd::Refused(rest)),
    }
}
