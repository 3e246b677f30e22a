//! Components and whole files, from terminals.
ghost use Rattle.std.specs.Prelude.{◌≡◌, [], ◌∷◌, List, map};
ghost use Rattle.cal_ast.specs.Tree.{assignment_tree, cell_tree, group_tree, control_tree, component_tree};
ghost use Rattle.cal_parse.specs.inside.Reading.{component_body_at, component_set, component_at, import_at, imports_at, components_at, file_at};
ghost use Rattle.hw_grammar.specs.declared.sort.Sort.TheVariants as Sort;
ghost use Rattle.hw_grammar.specs.Reading.{Gives, GivesNamed, with_front, many, whole};
ghost use Rattle.hw_grammar.specs.Sort.{has};

use crate::attribute::{angle_or_none, read_attributes};
use crate::cell::read_cells;
use crate::control::control_or_none;
use crate::group::{ComponentWires, read_wires};
use crate::pin::{outputs_or_none, read_inputs};
use cal_ast::{CalCell, CalComp, ControlPart};
use hw_grammar::{ReadEnd, Sort, Terminal, read_name, read_one, starts, starts_any};
use std::alloc::Global;

/// What stands between the braces of a component.
#[derive(Drop)]
struct ComponentBody {
    cells: Vec<CalCell>,
    wires: ComponentWires,
    control: ControlPart,
}

/// The sections of a component, between its braces.
#[tactic(auto, unfolding(crate::specs::inside::Reading::component_body_at))]
fn read_component_body(
    alloc: Global,
    ts: &[Terminal],
) -> Result<(ComponentBody, &[Terminal]), ReadEnd<'_>>
    ensures { GivesNamed (λ names x. (
      (
        map (cell_tree names) x.0.cells.items,
        ((map (group_tree names) x.0.wires.groups.items, map (assignment_tree names) x.0.wires.sets.items), control_tree names x.0.control),
      ),
      x.1.now,
    )) result
        (λ names. component_body_at names ts.now) }
{
    let (_, rest) = read_one(ts, Sort::LeftBrace)?;
    let (cells, rest) = read_cells(alloc, rest)?;
    let (wires, rest) = read_wires(alloc, rest)?;
    let (control, rest) = control_or_none(alloc, rest)?;
    let (_, rest) = read_one(rest, Sort::RightBrace)?;
    let body = ComponentBody {
        cells,
        wires,
        control,
    };
    Ok((body, rest))
}

/// A component with its attributes, which are dropped.
#[tactic(auto, unfolding(crate::specs::inside::Reading::component_at))]
fn read_component(alloc: Global, ts: &[Terminal]) -> Result<(CalComp, &[Terminal]), ReadEnd<'_>>
    ensures { GivesNamed (λ names x. (component_tree names x.0, x.1.now)) result (λ names. component_at names ts.now) }
{
    let (_, rest) = read_attributes(ts)?;
    let (_, rest) = read_one(rest, Sort::Component)?;
    let (name, rest) = read_name(rest)?;
    let (_, rest) = angle_or_none(rest)?;
    let (ins, rest) = read_inputs(alloc, rest)?;
    let (outs, rest) = outputs_or_none(alloc, rest)?;
    let (body, rest) = read_component_body(alloc, rest)?;
    let ComponentBody {
        cells,
        wires,
        control,
    } = body;
    let ComponentWires { groups, sets } = wires;
    let comp = CalComp {
        name,
        ins,
        outs,
        cells,
        groups,
        sets,
        control,
    };
    Ok((comp, rest))
}

/// What follows `"import" STRING ";"`.
#[tactic(auto, unfolding(crate::specs::inside::Reading::import_at))]
fn after_import(ts: &[Terminal]) -> Result<&[Terminal], ReadEnd<'_>>
    ensures { Gives (λ x. (tt, x.now)) result (import_at ts.now) }
{
    let (_, rest) = read_one(ts, Sort::Import)?;
    let (_, rest) = read_one(rest, Sort::Text)?;
    let (_, rest) = read_one(rest, Sort::Semicolon)?;
    Ok(rest)
}

/// What follows `{"import" STRING ";"}`.
fn after_imports(ts: &[Terminal]) -> Result<&[Terminal], ReadEnd<'_>>
    ensures { Gives (λ x. (tt, x.now)) result (imports_at ts.now) }
{
    let mut rest = ts;
    // Each round takes a terminal at least.
    for _ in 0..ts.len() {
        if !starts(rest, Sort::Import) {
            return Ok(rest);
        }
        rest = after_import(rest)?;
    }
    if starts(rest, Sort::Import) {
        Err(ReadEnd::Refused(rest))
    } else {
        Ok(rest)
    }
}

/// Whether a component starts here.
fn starts_component(ts: &[Terminal]) -> bool
    ensures { result ≡ has component_set ts.now }
{
    starts_any(ts, &[Sort::At, Sort::Component])
}

/// The components of `front`, and those that follow.
fn more_components<'a>(
    alloc: Global,
    front: Vec<CalComp>,
    ts: &'a [Terminal],
) -> Result<(Vec<CalComp>, &'a [Terminal]), ReadEnd<'a>>
    ensures { GivesNamed (λ names x. (map (component_tree names) x.0.items, x.1.now)) result
        (λ names. with_front (map (component_tree names) front.items) (many component_set (component_at names) ts.now)) }
{
    let mut all = front;
    let mut rest = ts;
    // Each round takes a terminal at least.
    for _ in 0..ts.len() {
        if !starts_component(rest) {
            return Ok((all, rest));
        }
        let (next, after) = read_component(alloc, rest)?;
        all.push(next)?;
        rest = after;
    }
    if starts_component(rest) {
        Err(ReadEnd::Refused(rest))
    } else {
        Ok((all, rest))
    }
}

/// `comp {comp}`
#[tactic(auto, unfolding(crate::specs::inside::Reading::components_at))]
fn read_components(
    alloc: Global,
    ts: &[Terminal],
) -> Result<(Vec<CalComp>, &[Terminal]), ReadEnd<'_>>
    ensures { GivesNamed (λ names x. (map (component_tree names) x.0.items, x.1.now)) result (λ names. components_at names ts.now) }
{
    let mut all = Vec::new(alloc);
    let (first, rest) = read_component(alloc, ts)?;
    all.push(first)?;
    more_components(alloc, all, rest)
}

/// Imports, which are dropped, and components.
#[tactic(auto, unfolding(crate::specs::inside::Reading::file_at))]
fn read_file(alloc: Global, ts: &[Terminal]) -> Result<(Vec<CalComp>, &[Terminal]), ReadEnd<'_>>
    ensures { GivesNamed (λ names x. (map (component_tree names) x.0.items, x.1.now)) result (λ names. file_at names ts.now) }
{
    let rest = after_imports(ts)?;
    read_components(alloc, rest)
}

/// The components of a whole file.
pub fn whole_file(alloc: Global, ts: &[Terminal]) -> Result<Vec<CalComp>, ReadEnd<'_>>
    ensures { GivesNamed (λ names v. map (component_tree names) v.items) result (λ names. whole (file_at names ts.now)) }
{
    let (comps, rest) = read_file(alloc, ts)?;
    match rest {
        [] => Ok(comps),
        [_, ..] => Err(ReadEnd::Refused(rest)),
    }
}
