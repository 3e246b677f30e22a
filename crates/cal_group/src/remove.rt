//! Groups become guarded wires: each group's assignments are continuous, under the group's rule.
ghost use Rattle.std.specs.Prelude.{◌≡◌, ◌<◌, ℕ, [], ◌∷◌, List, length, map, slice_get, Some, All, Contains, IfOk, OnOk};
ghost use Rattle.hw_names.specs.Name.{Text};
ghost use Rattle.net_core.specs.Guard.{AllOf, guards_of};
ghost use Rattle.net_core.specs.Numbers.{IsNumberOf};
ghost use Rattle.cal_ast.specs.Holes.{IsHoleDesign, rule_trees};
ghost use Rattle.cal_ast.specs.Items.{control_statements};
ghost use Rattle.cal_ast.specs.Numbers.{ComponentHasNumbers, GuardHasNumbers, HasNumbers, RuleHasNumbers};
ghost use Rattle.cal_ast.specs.Tree.{Design, component_tree, control_tree, design_of};
ghost use Rattle.cal_copy.specs.inside.Copies.{port_guard};
ghost use Rattle.cal_group.specs.RemovesGroups.{RemovesGroups};
ghost use Rattle.cal_group.specs.inside.Removed.{removed, removed_design};
ghost use Rattle.cal_group.specs.inside.Ruling.{AddsRuled, HasPlaces, HasRulesOf, IsNoted, IsRuledSet};

use cal_ast::{
    ActRule, Assign, CalComp, CalDesign, CalPort, ControlPart, Group, HoleDesign, WireDesign,
};
use cal_copy::{copy_cells, copy_guard, copy_names, copy_sets};
use hw_bits::Memory;
use net_core::Guard;
use std::alloc::Global;

/// Both guards.
fn both(
    alloc: Global,
    first: Guard<CalPort>,
    second: Guard<CalPort>,
) -> Result<Guard<CalPort>, Memory>
    ensures numbers { (names : List Text) → GuardHasNumbers names first → GuardHasNumbers names second → IfOk result (GuardHasNumbers names) }
    ensures tree { (names : List Text) → IfOk result (λ guard.
        port_guard names guard ≡ AllOf (guards_of (port_guard names first ∷ port_guard names second ∷ []))) }
{
    let mut guards = Vec::with_capacity(alloc, 2)?;
    guards.push(first)?;
    guards.push(second)?;
    Ok(Guard::All(guards))
}

/// An assignment of a group, under the group's rule.
fn ruled_set(alloc: Global, when: &Guard<CalPort>, set: &Assign) -> Result<Assign, Memory>
    ensures { IfOk result (IsRuledSet when.now set.now) }
{
    let rule = copy_guard(alloc, when)?;
    let guard = match &set.guard {
        None => rule,
        Some(own) => {
            let own = copy_guard(alloc, own)?;
            both(alloc, rule, own)?
        }
    };
    Ok(Assign {
        dst: set.dst,
        guard: Some(guard),
        src: set.src,
    })
}

/// Puts the assignments of a group last, under the group's rule.
fn put_ruled(
    alloc: Global,
    sets: &mut Vec<Assign>,
    group: &Group,
    when: &Guard<CalPort>,
) -> Result<(), Memory>
    ensures { OnOk result (AddsRuled when.now group.now.sets.items sets.old.items sets.new.items) }
{
    for set in &group.sets {
        sets.push(ruled_set(alloc, when, set)?)?;
    }
    Ok(())
}

/// The control section of a bare component.
fn bare_control(control: &ControlPart) -> ControlPart
    requires { (names : List Text) → control_statements (control_tree names control.now) ≡ [] }
    ensures { (names : List Text) → control_tree names result ≡ control_tree names control.now }
{
    match control {
        ControlPart::Absent => ControlPart::Absent,
        ControlPart::Empty => ControlPart::Empty,
        ControlPart::Body(_) => unreachable!(),
    }
}

/// The component with its groups as guarded wires. The table has the place of each group's rule, by the number of the group's name.
fn removed_component(
    alloc: Global,
    comp: &CalComp,
    acts: &[ActRule],
    table: &[usize],
) -> Result<CalComp, Memory>
    requires bare { (names : List Text) → control_statements (control_tree names comp.now.control) ≡ [] }
    requires ruled { (group : Group) → Contains comp.now.groups.items group →
        (place : ℕ) × (rule : ActRule) × (slice_get table.now group.name.0 ≡ Some place) × (slice_get acts.now place ≡ Some rule) }
    ensures { (names : List Text) (design : Design) → ComponentHasNumbers names comp.now → HasRulesOf names design acts.now table.now comp.now →
        IfOk result (λ removal.
        (component_tree names removal ≡ removed design (rule_trees names acts.now) (component_tree names comp.now)) × ComponentHasNumbers names removal) }
{
    let mut sets = copy_sets(alloc, &comp.sets)?;
    for group in &comp.groups {
        let rule = &acts[table[group.name.0 as usize]];
        put_ruled(alloc, &mut sets, group, &rule.when)?;
    }
    Ok(CalComp {
        name: comp.name,
        ins: Vec::from_slice(alloc, &comp.ins)?,
        outs: Vec::from_slice(alloc, &comp.outs)?,
        cells: copy_cells(alloc, &comp.cells)?,
        groups: Vec::new(alloc),
        sets,
        control: bare_control(&comp.control),
    })
}

/// An empty list for each of so many components.
fn empty_lists(alloc: Global, count: usize) -> Result<Vec<Vec<usize>>, Memory>
    ensures len { IfOk result (λ lists. length lists.items ≡ count) }
    ensures empty { IfOk result (λ lists. All (λ list. list.items ≡ []) lists.items) }
{
    let mut lists = Vec::new(alloc);
    for _ in 0..count {
        lists.push(Vec::new(alloc))?;
    }
    Ok(lists)
}

/// The places of the rules of each component.
fn rules_by_component(
    alloc: Global,
    acts: &[ActRule],
    count: usize,
) -> Result<Vec<Vec<usize>>, Memory>
    requires { All (λ (rule : ActRule). rule.comp < count) acts.now }
    ensures len { IfOk result (λ lists. length lists.items ≡ count) }
    ensures places { IfOk result (λ lists. HasPlaces acts.now lists.items) }
{
    let mut lists = empty_lists(alloc, count)?;
    for (place, rule) in acts.iter().enumerate() {
        lists[rule.comp].push(place)?;
    }
    Ok(lists)
}

/// Notes the places of a component's rules by the numbers of their groups' names.
fn note_rules(table: &mut [usize], acts: &[ActRule], places: &[usize])
    requires within { All (λ place. place < length acts.now) places.now }
    requires groups { All (λ (rule : ActRule). rule.group.0 < length table.old) acts.now }
    ensures { IsNoted acts.now places.now table.new }
{
    for place in places {
        table[acts[*place].group.0 as usize] = *place;
    }
}

/// The components with their groups as guarded wires.
fn removed_components(alloc: Global, holes: &HoleDesign) -> Result<Vec<CalComp>, Memory>
    requires numbers { HasNumbers holes.now.design }
    requires rules { All (RuleHasNumbers holes.now.design.names) holes.now.acts.items }
    requires hole { IsHoleDesign (design_of holes.now.design) (rule_trees holes.now.design.names holes.now.acts.items) }
    ensures trees { IfOk result (λ comps. map (component_tree holes.now.design.names) comps.items
        ≡ removed_design (design_of holes.now.design) (rule_trees holes.now.design.names holes.now.acts.items)) }
    ensures numbers { IfOk result (λ comps. All (ComponentHasNumbers holes.now.design.names) comps.items) }
{
    let design = &holes.design;
    let places = rules_by_component(alloc, &holes.acts, design.comps.len())?;
    let mut table = vec![in alloc; 0; design.names.len()]?;
    let mut comps = Vec::new(alloc);
    for (number, comp) in design.comps.iter().enumerate() {
        note_rules(&mut table, &holes.acts, &places[number]);
        comps.push(removed_component(alloc, comp, &holes.acts, &table)?)?;
    }
    Ok(comps)
}

/// The design with each group's assignments as guarded wires, under the group's rule. It keeps the rules, the cells and the runs of the design.
pub fn remove_groups(alloc: Global, holes: &HoleDesign) -> Result<WireDesign, Memory>
    requires numbers { HasNumbers holes.now.design }
    requires rules { All (RuleHasNumbers holes.now.design.names) holes.now.acts.items }
    requires hole { IsHoleDesign (design_of holes.now.design) (rule_trees holes.now.design.names holes.now.acts.items) }
    ensures removes { IfOk result (λ wired.
        RemovesGroups (design_of holes.now.design) (rule_trees holes.now.design.names holes.now.acts.items) (design_of wired.design)) }
    ensures numbers { IfOk result (λ wired. HasNumbers wired.design) }
{
    let names = copy_names(alloc, &holes.design.names)?;
    let comps = removed_components(alloc, holes)?;
    Ok(WireDesign {
        design: CalDesign { names, comps },
    })
}
