//! Components and whole files, from terminals.
ghost use Rattle.std.specs.Prelude.{◌≡◌, [], ◌∷◌, List, map};
ghost use Rattle.hw_grammar.specs.declared.sort.Sort.TheVariants as Sort;
ghost use Rattle.hw_grammar.specs.Reading.{Gives, GivesNamed, with_front, many, whole};
ghost use Rattle.par_parse.specs.Tree.{component_tree};
ghost use Rattle.par_parse.specs.inside.Reading.{component_at, import_at, imports_at, file_at};

use crate::block::read_body;
use crate::event::{names_or_none, read_events};
use crate::port::{Inputs, Ports, read_ports};
use crate::tree::ParamComponent;
use hw_grammar::{ReadEnd, Sort, Terminal, read_name, read_one, starts};
use std::alloc::Global;

/// A component.
#[tactic(auto, unfolding(crate::specs::inside::Reading::component_at))]
fn read_component(
    alloc: Global,
    ts: &[Terminal],
) -> Result<(ParamComponent, &[Terminal]), ReadEnd<'_>>
    ensures { GivesNamed (λ names x. (component_tree names x.0, x.1.now)) result (λ names. component_at names ts.now) }
{
    let (_, rest) = read_one(ts, Sort::Comp)?;
    let (name, rest) = read_name(rest)?;
    let (params, rest) = names_or_none(alloc, rest)?;
    let (events, rest) = read_events(alloc, rest)?;
    let (ports, rest) = read_ports(alloc, rest)?;
    let (body, rest) = read_body(alloc, rest)?;
    let Ports { inputs, outs } = ports;
    let Inputs { gos, ins } = inputs;
    let comp = ParamComponent {
        name,
        params,
        events,
        gos,
        ins,
        outs,
        body,
    };
    Ok((comp, rest))
}

/// What follows `"import" STRING ";"`.
#[tactic(auto, unfolding(crate::specs::inside::Reading::import_at))]
fn after_import(ts: &[Terminal]) -> Result<&[Terminal], ReadEnd<'_>>
    ensures { Gives (λ x. (tt, x.now)) result (import_at ts.now) }
{
    let (_, rest) = read_one(ts, Sort::Import)?;
    let (_, rest) = read_one(rest, Sort::Text)?;
    let (_, rest) = read_one(rest, Sort::Semicolon)?;
    Ok(rest)
}

/// What follows `{"import" STRING ";"}`.
fn after_imports(ts: &[Terminal]) -> Result<&[Terminal], ReadEnd<'_>>
    ensures { Gives (λ x. (tt, x.now)) result (imports_at ts.now) }
{
    let mut rest = ts;
    // Each round takes a terminal at least.
    for _ in 0..ts.len() {
        if !starts(rest, Sort::Import) {
            return Ok(rest);
        }
        rest = after_import(rest)?;
    }
    if starts(rest, Sort::Import) {
        Err(ReadEnd::Refused(rest))
    } else {
        Ok(rest)
    }
}

/// The components of `front`, and those that follow.
fn more_components<'a>(
    alloc: Global,
    front: Vec<ParamComponent>,
    ts: &'a [Terminal],
) -> Result<(Vec<ParamComponent>, &'a [Terminal]), ReadEnd<'a>>
    ensures { GivesNamed (λ names x. (map (component_tree names) x.0.items, x.1.now)) result
        (λ names. with_front (map (component_tree names) front.items) (many (Sort.Comp ∷ []) (component_at names) ts.now)) }
{
    let mut all = front;
    let mut rest = ts;
    // Each round takes a terminal at least.
    for _ in 0..ts.len() {
        if !starts(rest, Sort::Comp) {
            return Ok((all, rest));
        }
        let (next, after) = read_component(alloc, rest)?;
        all.push(next)?;
        rest = after;
    }
    if starts(rest, Sort::Comp) {
        Err(ReadEnd::Refused(rest))
    } else {
        Ok((all, rest))
    }
}

/// Imports, which are dropped, and components.
#[tactic(auto, unfolding(crate::specs::inside::Reading::file_at))]
fn read_file(
    alloc: Global,
    ts: &[Terminal],
) -> Result<(Vec<ParamComponent>, &[Terminal]), ReadEnd<'_>>
    ensures { GivesNamed (λ names x. (map (component_tree names) x.0.items, x.1.now)) result (λ names. file_at names ts.now) }
{
    let rest = after_imports(ts)?;
    let mut all = Vec::new(alloc);
    let (first, rest) = read_component(alloc, rest)?;
    all.push(first)?;
    more_components(alloc, all, rest)
}

/// The components of a whole file.
pub fn whole_file(alloc: Global, ts: &[Terminal]) -> Result<Vec<ParamComponent>, ReadEnd<'_>>
    ensures { GivesNamed (λ names v. map (component_tree names) v.items) result (λ names. whole (file_at names ts.now)) }
{
    let (comps, rest) = read_file(alloc, ts)?;
    match rest {
        [] => Ok(comps),
        [_, ..] => Err(ReadEnd::Refused(rest)),
    }
}
