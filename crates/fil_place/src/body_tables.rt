//! The tables of a component that is known to keep the rules: its statements fill them, and none is judged again.
ghost use Rattle.std.specs.Prelude.{[], IfOk, OnOk};
ghost use Rattle.fil_ast.specs.Items.{scope_after};
ghost use Rattle.fil_ast.specs.Limits.{KeepsLimits, KeepsStatementLimit};
ghost use Rattle.fil_ast.specs.Naming.{HasNewNames, MakesNewNames, UsesKnownNames};
ghost use Rattle.fil_ast.specs.Numbers.{ComponentHasNumbers, StatementHasNumbers};
ghost use Rattle.fil_ast.specs.Rules.{KeepsComponent, all_rules};
ghost use Rattle.fil_ast.specs.Scope.{Scope};
ghost use Rattle.fil_ast.specs.Tree.{Design, component_tree, statement_tree};
ghost use Rattle.fil_ast.specs.Typing.{KeepsWidths};
ghost use Rattle.fil_ast.specs.Wires.{whole_scope};
ghost use Rattle.fil_place.specs.Tables.{IsPlace, Shows, ShowsEarlier, grown};

use crate::earlier::Earlier;
use crate::instances::made_at;
use crate::offsets::given_at;
use crate::place::Around;
use crate::signature_names::take_signature_names;
use crate::statement_parts::{StatementParts, add_statement};
use crate::tables::Tables;
use fil_ast::{FilComp, Stmt};
use hw_bits::Memory;
use hw_names::Names;
use std::alloc::Global;

/// The tables before the first statement of a component whose signature keeps F1.
fn begun(alloc: Global, around: &Around) -> Result<Tables, Memory>
    requires numbers { ComponentHasNumbers around.now.names.now around.now.comp.now }
    ensures { (comps : Design) → ShowsEarlier around.now.earlier.now comps
        → HasNewNames comps (component_tree around.now.names.now around.now.comp.now)
        → IfOk result (λ tables. Shows around.now.earlier.now tables (scope_after comps (component_tree around.now.names.now around.now.comp.now) [])) }
{
    let mut events = around.names.beside();
    let mut ports = around.names.beside();
    let _are_new = take_signature_names(alloc, around.names, around.comp, &mut events, &mut ports)?;
    Ok(Tables::new(alloc, events, ports))
}

/// Puts what a statement that keeps F1 to F3 makes into the tables.
fn add_kept_statement(
    alloc: Global,
    around: &Around,
    tables: &mut Tables,
    stmt: &Stmt,
) -> Result<(), Memory>
    requires statement { StatementHasNumbers around.now.names.now stmt.now }
    requires small { KeepsStatementLimit stmt.now }
    ensures { (scope : Scope) → IsPlace around.now.names.now around.now.earlier.now around.now.comp.now tables.old scope
        → MakesNewNames scope (statement_tree around.now.names.now stmt.now) → UsesKnownNames scope (statement_tree around.now.names.now stmt.now)
        → KeepsWidths scope (statement_tree around.now.names.now stmt.now)
        → OnOk result (Shows around.now.earlier.now tables.new (grown scope (statement_tree around.now.names.now stmt.now))) }
{
    let made = made_at(alloc, around.names, around.earlier, stmt)?;
    let at = given_at(alloc, around.names, &tables.events, stmt)?;
    add_statement(alloc, around, tables, StatementParts { made, at }, stmt)
}

/// The tables of the whole body of a component that keeps the rules.
pub fn tables_of(
    alloc: Global,
    names: &Names,
    earlier: &Earlier,
    comp: &FilComp,
) -> Result<Tables, Memory>
    requires numbers { ComponentHasNumbers names.now comp.now }
    requires small { KeepsLimits comp.now }
    ensures { (comps : Design) → ShowsEarlier earlier.now comps → KeepsComponent all_rules comps (component_tree names.now comp.now)
        → IfOk result (λ tables. IsPlace names.now earlier.now comp.now tables (whole_scope comps (component_tree names.now comp.now))) }
{
    let around = Around {
        names,
        earlier,
        comp,
    };
    let mut tables = begun(alloc, &around)?;
    for stmt in &comp.body {
        add_kept_statement(alloc, &around, &mut tables, stmt)?;
    }
    Ok(tables)
}
