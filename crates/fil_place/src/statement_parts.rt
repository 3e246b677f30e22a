//! What a statement that keeps F1 to F4 puts into the tables.
ghost use Rattle.std.specs.Prelude.{◌≡◌, ◌∷◌, ◌++◌, [], List, Some, Contains, OnOk, flat_map, map, option_and_then, option_map, slice_get, slice_index_or, slice_set};
ghost use Rattle.hw_names.specs.Name.{Text};
ghost use Rattle.fil_ast.specs.Connections.{ConnectsOnce, connected_at};
ghost use Rattle.fil_ast.specs.Naming.{MakesNewNames, UsesKnownNames};
ghost use Rattle.fil_ast.specs.Numbers.{StatementHasNumbers};
ghost use Rattle.fil_ast.specs.Scope.{Scope};
ghost use Rattle.fil_ast.specs.Tree.{Statement, TimeAt, statement_tree};
ghost use Rattle.fil_ast.specs.Typing.{KeepsWidths};
ghost use Rattle.fil_sig.specs.Seen.{seen};
ghost use Rattle.fil_place.specs.Callees.{HasGoodTimes};
ghost use Rattle.fil_place.specs.Starts.{AddsUses, ListsAllUses};
ghost use Rattle.fil_place.specs.Tables.{AddsInstance, AddsInvocation, AreTimesOf, IsMadeAt, IsPlace, Shows, grown, listed, made_signature};
ghost use Rattle.fil_place.specs.Times.{AreTimes};

use crate::callee::Callee;
use crate::earlier::Earlier;
use crate::lookup::callee_made;
use crate::place::Around;
use crate::starts::Starts;
use crate::tables::{Made, Tables};
use crate::times::Offset;
use crate::uses::use_of;
use fil_ast::Stmt;
use fil_sig::{TimeSig, add_name};
use hw_bits::Memory;
use hw_names::Names;
use std::alloc::Global;

/// Puts an instance of a new name last.
fn add_instance(alloc: Global, tables: &mut Tables, name: &[u8], made: Made) -> Result<(), Memory>
    ensures added { OnOk result (¬ Contains tables.old.instances name.now → AddsInstance tables.old tables.new name.now made) }
    ensures starts { OnOk result (tables.new.starts ≡ tables.old.starts) }
    ensures connected { OnOk result (tables.new.connected ≡ tables.old.connected) }
{
    let _new = add_name(&mut tables.instances, name)?;
    tables.made.push(made)?;
    tables.calls.push(Vec::new(alloc))?;
    Ok(())
}

/// Puts the number of an invocation last among those of its instance.
fn add_call(calls: &mut Vec<Vec<usize>>, instance: usize, number: usize) -> Result<(), Memory>
    ensures { OnOk result (map listed calls.new.items
        ≡ slice_set (map listed calls.old.items) instance (slice_index_or (map listed calls.old.items) instance [] ++ number ∷ [])) }
{
    if instance < calls.len() {
        calls[instance].push(number)?;
    }
    Ok(())
}

/// Adds the uses by an invocation at these times of the instance with this number and this signature.
fn add_uses(
    starts: &mut Starts,
    instance: usize,
    sig: &TimeSig,
    at: &[Offset],
) -> Result<(), Memory>
    requires times { HasGoodTimes (seen sig.now) }
    ensures { (events : List Text) (inst : Text) (times : List TimeAt) → AreTimes events at.now times
        → OnOk result (AddsUses events (Some (seen sig.now)) inst times instance starts.old starts.new) }
{
    for (number, event) in sig.events.iter().enumerate() {
        if let Some(held) = use_of(at, number, event.delay) {
            starts.add(instance, number, held)?;
        }
    }
    Ok(())
}

/// The same where it may have no signature.
fn add_callee_uses(
    starts: &mut Starts,
    instance: usize,
    callee: Option<&Callee>,
    at: &[Offset],
) -> Result<(), Memory>
    ensures { (events : List Text) (inst : Text) (times : List TimeAt) → AreTimes events at.now times
        → OnOk result (AddsUses events (option_map (λ callee. callee.now) callee.entry) inst times instance starts.old starts.new) }
{
    match callee {
        Some(callee) => add_uses(starts, instance, callee.sig(), at),
        None => Ok(()),
    }
}

/// The signature of the instance with this number, where these are what the instances are made of.
fn callee_in<'a>(earlier: &'a Earlier, made: &'a [Made], instance: usize) -> Option<&'a Callee>
    ensures { option_map (λ callee. callee.now) result ≡ option_and_then (made_signature earlier.now) (slice_get made.now instance) }
{
    callee_made(earlier, made.get(instance)?)
}

/// Puts an invocation of a new name last, with the times that it gives.
fn add_invocation(
    earlier: &Earlier,
    tables: &mut Tables,
    name: &[u8],
    instance: usize,
    at: Vec<Offset>,
) -> Result<(), Memory>
    ensures added { OnOk result (¬ Contains tables.old.ports name.now → AddsInvocation tables.old tables.new name.now instance at) }
    ensures uses { (events : List Text) (inst : Text) (times : List TimeAt) → AreTimes events at.items times
        → OnOk result (AddsUses events (option_and_then (made_signature earlier.now) (slice_get tables.old.made.items instance)) inst times instance tables.old.starts tables.new.starts) }
    ensures connected { OnOk result (tables.new.connected ≡ tables.old.connected) }
{
    let _new = add_name(&mut tables.ports, name)?;
    add_call(&mut tables.calls, instance, tables.invoked.len())?;
    let callee = callee_in(earlier, &tables.made, instance);
    add_callee_uses(&mut tables.starts, instance, callee, &at)?;
    tables.invoked.push(instance)?;
    tables.times.push(at)?;
    Ok(())
}

/// Puts an output that is not connected so far last among those that are.
fn add_connected(connected: &mut Names, name: &[u8]) -> Result<(), Memory>
    ensures { OnOk result (¬ Contains connected.old name.now → connected.new ≡ connected.old ++ name.now ∷ []) }
{
    let _new = add_name(connected, name)?;
    Ok(())
}

/// What a statement that keeps the rules makes.
#[derive(Drop)]
pub struct StatementParts {
    /// What its instance is made of, where it makes one.
    pub made: Option<Made>,
    /// The times at which it invokes.
    pub at: Vec<Offset>,
}

/// Puts what a statement makes into the tables: an instance, an invocation or both, or the output that
/// it connects.
pub fn add_statement(
    alloc: Global,
    around: &Around,
    tables: &mut Tables,
    parts: StatementParts,
    stmt: &Stmt,
) -> Result<(), Memory>
    requires { StatementHasNumbers around.now.names.now stmt.now }
    ensures shown { (scope : Scope) → IsPlace around.now.names.now around.now.earlier.now around.now.comp.now tables.old scope
        → MakesNewNames scope (statement_tree around.now.names.now stmt.now) → UsesKnownNames scope (statement_tree around.now.names.now stmt.now)
        → KeepsWidths scope (statement_tree around.now.names.now stmt.now) → IsMadeAt around.now.earlier.now scope.comps parts.made (statement_tree around.now.names.now stmt.now)
        → AreTimesOf tables.old.events parts.at.items (statement_tree around.now.names.now stmt.now)
        → OnOk result (Shows around.now.earlier.now tables.new (grown scope (statement_tree around.now.names.now stmt.now))) }
    ensures listed { (scope : Scope) → IsPlace around.now.names.now around.now.earlier.now around.now.comp.now tables.old scope
        → MakesNewNames scope (statement_tree around.now.names.now stmt.now) → UsesKnownNames scope (statement_tree around.now.names.now stmt.now)
        → KeepsWidths scope (statement_tree around.now.names.now stmt.now) → IsMadeAt around.now.earlier.now scope.comps parts.made (statement_tree around.now.names.now stmt.now)
        → AreTimesOf tables.old.events parts.at.items (statement_tree around.now.names.now stmt.now) → ListsAllUses tables.old scope
        → OnOk result (ListsAllUses tables.new (grown scope (statement_tree around.now.names.now stmt.now))) }
    ensures connected { (scope : Scope) (before : List Statement) → tables.old.connected ≡ flat_map connected_at before
        → ConnectsOnce scope before (statement_tree around.now.names.now stmt.now)
        → OnOk result (tables.new.connected ≡ flat_map connected_at (before ++ statement_tree around.now.names.now stmt.now ∷ [])) }
{
    let StatementParts { made, at } = parts;
    match stmt {
        Stmt::New { name, .. } => match made {
            Some(made) => add_instance(alloc, tables, around.names.text(*name), made),
            None => Ok(()),
        },
        Stmt::Call { name, inst, .. } => match tables.instances.find(around.names.text(*inst)) {
            Some(instance) => {
                add_invocation(
                    around.earlier,
                    tables,
                    around.names.text(*name),
                    instance.0 as usize,
                    at,
                )
            }
            None => Ok(()),
        },
        Stmt::Both { name, .. } => match made {
            Some(made) => {
                let instance = tables.instances.len();
                add_instance(alloc, tables, around.names.text(*name), made)?;
                add_invocation(
                    around.earlier,
                    tables,
                    around.names.text(*name),
                    instance,
                    at,
                )
            }
            None => Ok(()),
        },
        Stmt::Set { dst, .. } => add_connected(&mut tables.connected, around.names.text(*dst)),
    }
}
