//! A component as a bare Calyx component.
ghost use Rattle.std.specs.Prelude.{◌≡◌, ◌++◌, List, [], map, flat_map, All, IfOk, OnOk};
ghost use Rattle.hw_names.specs.Name.{KeepsTexts, Text, text_of};
ghost use Rattle.cal_ast.specs.Numbers.{CellHasNumbers, ComponentHasNumbers, SetHasNumbers};
ghost use Rattle.cal_ast.specs.Tree as calyx;
ghost use Rattle.cal_ast.specs.Tree.{Absent, assignment_tree, cell_tree, component_tree};
ghost use Rattle.fil_ast.specs.Numbers as fil;
ghost use Rattle.fil_ast.specs.Scope.{Scope};
ghost use Rattle.fil_ast.specs.Tree as tree;
ghost use Rattle.fil_promise.specs.Refines.{inputs_of, outputs_of};
ghost use Rattle.fil_lower.specs.inside.Lowering.{IsLoweredTo, Lowering, connection_set, invocation_sets, start_sets};
ghost use Rattle.fil_lower.specs.inside.Place.{ShowsBody, ShowsPlace};

use crate::arguments::{push_arguments, push_connections};
use crate::bits::EventBits;
use crate::body::Body;
use crate::cells::{input_pins, instance_cells, output_pins};
use crate::names::add_port_names;
use crate::place::Place;
use crate::starts::push_starts;
use cal_ast::{Assign, CalCell, CalComp, ControlPart};
use hw_bits::Memory;
use hw_names::Names;
use std::alloc::Global;

/// Puts the assignments of arguments, starts and outputs last.
fn push_sets(alloc: Global, place: &Place<'_>, sets: &mut Vec<Assign>) -> Result<(), Memory>
    requires { (l : Lowering) × ShowsPlace place.now l }
    ensures sets { (l : Lowering) → ShowsPlace place.now l → OnOk result (map (assignment_tree place.now.names.now) sets.new.items
        ≡ map (assignment_tree place.now.names.now) sets.old.items ++ flat_map (invocation_sets l) l.scope.invocations ++ flat_map (start_sets l) l.scope.instances ++ flat_map (connection_set l) l.scope.comp.body) }
    ensures numbers { All (SetHasNumbers place.now.names.now) sets.old.items → All (SetHasNumbers place.now.names.now) sets.new.items }
{
    push_arguments(alloc, place, sets)?;
    push_starts(alloc, place, sets)?;
    push_connections(place, sets)
}

/// A component of these cells and assignments, with the name and the ports of the body's.
fn bare_component(
    alloc: Global,
    body: &Body<'_>,
    cells: Vec<CalCell>,
    sets: Vec<Assign>,
) -> Result<CalComp, Memory>
    ensures component { (names : List Text) → KeepsTexts body.now.names.now names → fil.ComponentHasNumbers body.now.names.now body.now.comp.now
        → IfOk result (λ comp. component_tree names comp ≡ record {
          name = text_of body.now.names.now body.now.comp.now.name;
          ins = inputs_of (tree.component_tree body.now.names.now body.now.comp.now);
          outs = outputs_of (tree.component_tree body.now.names.now body.now.comp.now);
          cells = map (cell_tree names) cells.items;
          groups = [];
          sets = map (assignment_tree names) sets.items;
          control = Absent;
        }) }
    ensures numbers { (names : List Text) → KeepsTexts body.now.names.now names → fil.ComponentHasNumbers body.now.names.now body.now.comp.now
        → All (CellHasNumbers names) cells.items → All (SetHasNumbers names) sets.items → IfOk result (ComponentHasNumbers names) }
{
    Ok(CalComp {
        name: body.comp.name,
        ins: input_pins(alloc, body.comp)?,
        outs: output_pins(alloc, body.comp)?,
        cells,
        groups: Vec::new(alloc),
        sets,
        control: ControlPart::Absent,
    })
}

/// The component that is lowered. Names of ports, primitives and registers are added to `names`.
pub(crate) fn lower_component(
    alloc: Global,
    names: &mut Names,
    body: &Body<'_>,
) -> Result<CalComp, Memory>
    requires body { (scope : Scope) × ShowsBody body.now scope }
    requires names { KeepsTexts body.now.names.now names.old }
    ensures kept { KeepsTexts names.old names.new }
    ensures numbers { IfOk result (ComponentHasNumbers names.new) }
    ensures lowered { (scope : Scope) → ShowsBody body.now scope → IfOk result (λ low. IsLoweredTo scope.comps scope.comp (component_tree names.new low)) }
{
    add_port_names(names, &body.instances)?;
    let mut cells = instance_cells(alloc, body.names, names, body.comp)?;
    let EventBits {
        cells: mut registers,
        mut sets,
        bits,
    } = EventBits::make(alloc, names, body)?;
    cells.append(&mut registers)?;
    let place = Place {
        names: &*names,
        body: &*body,
        bits: bits.as_slice(),
    };
    push_sets(alloc, &place, &mut sets)?;
    bare_component(alloc, body, cells, sets)
}
