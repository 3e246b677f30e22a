//! The rules F1 to F13 of a component: its signature, its statements one after another, and the end of its body.
ghost use Rattle.std.specs.Prelude.{[], IfErr, IfOk, OnOk};
ghost use Rattle.fil_ast.specs.Items.{scope_after};
ghost use Rattle.fil_ast.specs.Limits.{KeepsLimits};
ghost use Rattle.fil_ast.specs.Numbers.{ComponentHasNumbers};
ghost use Rattle.fil_ast.specs.Rules.{KeepsComponent, all_rules};
ghost use Rattle.fil_ast.specs.Tree.{Design, component_tree};
ghost use Rattle.fil_ast.specs.Wires.{whole_scope};
ghost use Rattle.fil_rules.specs.FirstItem.{ItemIs, KeepsBefore, TellsItem};
ghost use Rattle.fil_rules.specs.inside.StandsAt.{StandsAt};
ghost use Rattle.fil_place.specs.Tables.{IsPlace, ShowsEarlier};

use crate::connections::connects_all;
use crate::rules::{CompEnd, ItemEnd, Rule, breaks};
use crate::signature::judge_signature;
use crate::statement::judge_statement;
use fil_ast::FilComp;
use fil_place::{Around, Earlier, Tables};
use hw_names::Names;
use std::alloc::Global;

/// Judges a component, after those before it. Gives the tables of its whole body where it keeps the rules.
pub fn judge_component(
    alloc: Global,
    names: &Names,
    earlier: &Earlier,
    comp: &FilComp,
) -> Result<Tables, CompEnd>
    requires numbers { ComponentHasNumbers names.now comp.now }
    requires small { KeepsLimits comp.now }
    ensures kept { (comps : Design) → ShowsEarlier earlier.now comps
        → OnOk result (KeepsComponent all_rules comps (component_tree names.now comp.now)) }
    ensures tables { (comps : Design) → ShowsEarlier earlier.now comps
        → IfOk result (λ tables. IsPlace names.now earlier.now comp.now tables (whole_scope comps (component_tree names.now comp.now))) }
    ensures broken { (comps : Design) → ShowsEarlier earlier.now comps
        → IfErr result (TellsItem comps (component_tree names.now comp.now)) }
{
    let mut events = names.beside();
    let mut ports = names.beside();
    let around = Around {
        names,
        earlier,
        comp,
    };
    match judge_signature(alloc, &around, &mut events, &mut ports) {
        Ok(()) => {}
        Err(end) => return Err(at_item(0, end)),
    }
    let mut tables = Tables::new(alloc, events, ports);
    judge_body(alloc, &around, &mut tables)?;
    Ok(tables)
}

/// The end of an item as its component's end.
fn at_item(item: u64, end: ItemEnd) -> CompEnd
    ensures { ItemIs item end result }
{
    match end {
        ItemEnd::Broken(broken) => CompEnd::Broken { item, broken },
        ItemEnd::Memory => CompEnd::Memory,
    }
}

/// Judges the statements of a component whose signature keeps the rules, and the end of its body, and puts what the
/// statements make into the tables.
fn judge_body(alloc: Global, around: &Around, tables: &mut Tables) -> Result<(), CompEnd>
    requires numbers { ComponentHasNumbers around.now.names.now around.now.comp.now }
    requires small { KeepsLimits around.now.comp.now }
    ensures kept { (comps : Design) → StandsAt around.now.names.now around.now.earlier.now around.now.comp.now tables.old (scope_after comps (component_tree around.now.names.now around.now.comp.now) []) []
        → KeepsBefore comps (component_tree around.now.names.now around.now.comp.now) 1
        → OnOk result (KeepsComponent all_rules comps (component_tree around.now.names.now around.now.comp.now)) }
    ensures tables { (comps : Design) → StandsAt around.now.names.now around.now.earlier.now around.now.comp.now tables.old (scope_after comps (component_tree around.now.names.now around.now.comp.now) []) []
        → OnOk result (IsPlace around.now.names.now around.now.earlier.now around.now.comp.now tables.new (whole_scope comps (component_tree around.now.names.now around.now.comp.now))) }
    ensures broken { (comps : Design) → StandsAt around.now.names.now around.now.earlier.now around.now.comp.now tables.old (scope_after comps (component_tree around.now.names.now around.now.comp.now) []) []
        → KeepsBefore comps (component_tree around.now.names.now around.now.comp.now) 1
        → IfErr result (TellsItem comps (component_tree around.now.names.now around.now.comp.now)) }
{
    let mut item = 0;
    for stmt in &around.comp.body {
        item += 1;
        match judge_statement(alloc, around, tables, stmt) {
            Ok(()) => {}
            Err(end) => return Err(at_item(item, end)),
        }
    }
    if !connects_all(around.names, around.comp, &tables.connected) {
        return Err(at_item(item + 1, breaks(Rule::F9)));
    }
    Ok(())
}
