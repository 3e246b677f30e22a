//! The rules F1 to F13 at a statement.
ghost use Rattle.std.specs.Prelude.{◌≡◌, ◌<◌, [], ◌∷◌, ◌++◌, List, All, Some, IfErr, IfOk, OnOk, option_map};
ghost use Rattle.fil_ast.specs.Limits.{KeepsStatementLimit};
ghost use Rattle.fil_ast.specs.Numbers.{ComponentHasNumbers, StatementHasNumbers};
ghost use Rattle.fil_ast.specs.Refusal.{ShowsAtStatement};
ghost use Rattle.fil_ast.specs.Rules.{AtStatement, all_rules};
ghost use Rattle.fil_ast.specs.Scope.{Scope};
ghost use Rattle.fil_ast.specs.Tree.{Statement, statement_tree};
ghost use Rattle.fil_rules.specs.LeastRule.{TellsLeast};
ghost use Rattle.fil_place.specs.Place.{IsPlaceIn, with_instance};
ghost use Rattle.fil_rules.specs.inside.StandsAt.{StandsAt, StandsIn};
ghost use Rattle.fil_rules.specs.inside.Stages.{HoldsUses, KeepsFrom, KeptAt, ShownAt, TellsFrom};
ghost use Rattle.fil_place.specs.Tables.{AreTimesOf, IsMadeAt, grown, signature_at};

use crate::naming::{makes_new_names, uses_known_names};
use crate::rules::{ItemEnd, Rule, breaks};
use crate::sharing::judge_sharing;
use crate::timeline::judge_timing;
use crate::typing::{keeps_numbers, keeps_widths};
use fil_ast::Stmt;
use fil_place::{
    Around, Callee, Made, Offset, Place, StatementParts, Tables, add_statement, callee_made,
    callee_named, given_at, made_at,
};
use std::alloc::Global;

/// The signature of what the statement makes or invokes, where it has one.
fn callee_of<'a>(place: &Place<'a>, made: &'a Option<Made>, stmt: &Stmt) -> Option<&'a Callee>
    requires { StatementHasNumbers place.now.names.now stmt.now }
    ensures { (scope : Scope) → IsPlaceIn place.now scope
        → IsMadeAt place.now.earlier.now scope.comps made.now (statement_tree place.now.names.now stmt.now)
        → option_map (λ callee. callee.now) result ≡ signature_at scope (statement_tree place.now.names.now stmt.now) }
{
    match stmt {
        Stmt::Call { inst, .. } => callee_named(
            place.earlier,
            place.tables,
            place.names.text(*inst),
        ),
        _ => callee_made(place.earlier, made.as_ref()?),
    }
}

/// Judges a statement by F1 to F4; `callee` is what it makes or invokes. F5 and F6 are of signatures.
fn judge_meaning(place: &Place, callee: Option<&Callee>, stmt: &Stmt) -> Result<(), ItemEnd>
    requires { StatementHasNumbers place.now.names.now stmt.now }
    ensures kept { (scope : Scope) (before : List Statement) → IsPlaceIn place.now scope
        → option_map (λ callee. callee.now) callee.entry ≡ signature_at scope (statement_tree place.now.names.now stmt.now)
        → OnOk result (KeepsFrom (KeptAt scope before (statement_tree place.now.names.now stmt.now)) 0 6) }
    ensures broken { (scope : Scope) (before : List Statement) → IsPlaceIn place.now scope
        → option_map (λ callee. callee.now) callee.entry ≡ signature_at scope (statement_tree place.now.names.now stmt.now)
        → IfErr result (TellsFrom (KeptAt scope before (statement_tree place.now.names.now stmt.now)) (ShownAt scope (statement_tree place.now.names.now stmt.now)) 0) }
{
    if !makes_new_names(place.names, place.tables, stmt) {
        return Err(breaks(Rule::F1));
    }
    if !uses_known_names(place, stmt) {
        return Err(breaks(Rule::F2));
    }
    if !keeps_widths(place, callee, stmt) {
        return Err(breaks(Rule::F3));
    }
    if !keeps_numbers(place.names, callee, stmt) {
        return Err(breaks(Rule::F4));
    }
    Ok(())
}

/// Judges a statement that keeps F1 to F10 by F11 to F13; `callee` is what it makes or invokes, at these times.
fn judge_use(
    place: &Place,
    callee: Option<&Callee>,
    at: &[Offset],
    stmt: &Stmt,
) -> Result<(), ItemEnd>
    requires component { ComponentHasNumbers place.now.names.now place.now.comp.now }
    requires statement { StatementHasNumbers place.now.names.now stmt.now }
    ensures kept { (scope : Scope) (before : List Statement) → StandsIn place.now scope before
        → option_map (λ callee. callee.now) callee.entry ≡ signature_at scope (statement_tree place.now.names.now stmt.now)
        → AreTimesOf place.now.tables.now.events at.now (statement_tree place.now.names.now stmt.now)
        → KeepsFrom (KeptAt scope before (statement_tree place.now.names.now stmt.now)) 0 10
        → OnOk result (KeepsFrom (KeptAt scope before (statement_tree place.now.names.now stmt.now)) 10 13) }
    ensures broken { (scope : Scope) (before : List Statement) → StandsIn place.now scope before
        → option_map (λ callee. callee.now) callee.entry ≡ signature_at scope (statement_tree place.now.names.now stmt.now)
        → AreTimesOf place.now.tables.now.events at.now (statement_tree place.now.names.now stmt.now)
        → KeepsFrom (KeptAt scope before (statement_tree place.now.names.now stmt.now)) 0 10
        → IfErr result (TellsFrom (KeptAt scope before (statement_tree place.now.names.now stmt.now)) (ShownAt scope (statement_tree place.now.names.now stmt.now)) 10) }
{
    let Some(callee) = callee else {
        return Ok(());
    };
    match stmt {
        Stmt::Call { inst, .. } => match place.tables.instances.find(place.names.text(*inst)) {
            Some(instance) => judge_sharing(place, instance.0 as usize, callee, at),
            None => Ok(()),
        },
        Stmt::Both { .. } => {
            let instance = place.tables.instances.len();
            judge_sharing(place, instance, callee, at)
        }
        Stmt::New { .. } => Ok(()),
        Stmt::Set { .. } => Ok(()),
    }
}

/// Judges a statement by F1 to F13, where `made` is what its instance is made of; gives the times at which it invokes.
fn judge_rules(
    alloc: Global,
    place: &Place,
    made: &Option<Made>,
    stmt: &Stmt,
) -> Result<Vec<Offset>, ItemEnd>
    requires component { ComponentHasNumbers place.now.names.now place.now.comp.now }
    requires statement { StatementHasNumbers place.now.names.now stmt.now }
    requires small { KeepsStatementLimit stmt.now }
    ensures kept { (scope : Scope) (before : List Statement) → StandsIn place.now scope before
        → IsMadeAt place.now.earlier.now scope.comps made.now (statement_tree place.now.names.now stmt.now)
        → OnOk result (KeepsFrom (KeptAt scope before (statement_tree place.now.names.now stmt.now)) 0 13) }
    ensures broken { (scope : Scope) (before : List Statement) → StandsIn place.now scope before
        → IsMadeAt place.now.earlier.now scope.comps made.now (statement_tree place.now.names.now stmt.now)
        → IfErr result (TellsLeast (KeptAt scope before (statement_tree place.now.names.now stmt.now)) (ShownAt scope (statement_tree place.now.names.now stmt.now))) }
    ensures times { (scope : Scope) (before : List Statement) → StandsIn place.now scope before
        → IsMadeAt place.now.earlier.now scope.comps made.now (statement_tree place.now.names.now stmt.now)
        → IfOk result (λ at. AreTimesOf place.now.tables.now.events at.items (statement_tree place.now.names.now stmt.now)) }
    ensures held { (scope : Scope) (before : List Statement) → StandsIn place.now scope before
        → IsMadeAt place.now.earlier.now scope.comps made.now (statement_tree place.now.names.now stmt.now)
        → OnOk result (HoldsUses scope (statement_tree place.now.names.now stmt.now)) }
{
    let callee = callee_of(place, made, stmt);
    judge_meaning(place, callee, stmt)?;
    let at = given_at(alloc, place.names, &place.tables.events, stmt)?;
    judge_timing(place, callee, &at, stmt)?;
    judge_use(place, callee, &at, stmt)?;
    Ok(at)
}

/// Judges a statement by F1 to F13, in the scope that the tables show, and puts what it makes into them where it
/// keeps these rules.
pub fn judge_statement(
    alloc: Global,
    around: &Around,
    tables: &mut Tables,
    stmt: &Stmt,
) -> Result<(), ItemEnd>
    requires component { ComponentHasNumbers around.now.names.now around.now.comp.now }
    requires statement { StatementHasNumbers around.now.names.now stmt.now }
    requires small { KeepsStatementLimit stmt.now }
    ensures kept { (scope : Scope) (before : List Statement) → StandsAt around.now.names.now around.now.earlier.now around.now.comp.now tables.old scope before
        → OnOk result (All (λ rule. AtStatement rule scope (with_instance scope (statement_tree around.now.names.now stmt.now)) before (statement_tree around.now.names.now stmt.now)) all_rules) }
    ensures broken { (scope : Scope) (before : List Statement) → StandsAt around.now.names.now around.now.earlier.now around.now.comp.now tables.old scope before
        → IfErr result (TellsLeast (λ rule. AtStatement rule scope (with_instance scope (statement_tree around.now.names.now stmt.now)) before (statement_tree around.now.names.now stmt.now))
        (λ rule. ShowsAtStatement rule scope (with_instance scope (statement_tree around.now.names.now stmt.now)) (statement_tree around.now.names.now stmt.now))) }
    ensures next { (scope : Scope) (before : List Statement) → StandsAt around.now.names.now around.now.earlier.now around.now.comp.now tables.old scope before
        → OnOk result (StandsAt around.now.names.now around.now.earlier.now around.now.comp.now tables.new (grown scope (statement_tree around.now.names.now stmt.now)) (before ++ statement_tree around.now.names.now stmt.now ∷ [])) }
{
    let made = made_at(alloc, around.names, around.earlier, stmt)?;
    let place = Place {
        names: around.names,
        earlier: around.earlier,
        comp: around.comp,
        tables: &*tables,
    };
    let at = judge_rules(alloc, &place, &made, stmt)?;
    add_statement(alloc, around, tables, StatementParts { made, at }, stmt)?;
    Ok(())
}
