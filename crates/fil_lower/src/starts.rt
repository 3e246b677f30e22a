//! The assignments that start instances: an interface port is 1 at the bits at which invocations start its event.
ghost use Rattle.std.specs.Prelude.{◌≡◌, ℕ, ◌+◌, ◌<◌, ◌≤◌, ◌++◌, List, length, map, flat_map, drop, filter, slice_get, slice_index_or, Some, All, Contains, IfOk, OnOk};
ghost use Rattle.hw_names.specs.Name.{KeepsTexts, Text, text_of};
ghost use Rattle.hw_graph.specs.Groups.{with_key};
ghost use Rattle.cal_ast.specs.Numbers.{PortHasNumbers, SetHasNumbers};
ghost use Rattle.cal_ast.specs.Tree.{assignment_tree, port_tree};
ghost use Rattle.fil_ast.specs.Naming.{NamesEvent, instance_names};
ghost use Rattle.fil_ast.specs.Numbers.{IsNumberOf, StatementHasNumbers};
ghost use Rattle.fil_ast.specs.Scope.{Scope, instance_signature, instances_at};
ghost use Rattle.fil_ast.specs.Signature.{Signature};
ghost use Rattle.fil_ast.specs.Tree.{statement_tree};
ghost use Rattle.fil_sig.specs.Seen.{seen_event};
ghost use Rattle.fil_lower.specs.inside.Lowering.{Lowering, bit_at, bits_of, start_set, start_sets, start_sets_from, starting_bits};
ghost use Rattle.fil_lower.specs.inside.Place.{AreUsesOf, ShowsBody, ShowsPlace, ShowsUses, Starts};

use crate::body::Body;
use crate::guards::any_of;
use crate::names::number_of;
use crate::parts::made;
use crate::place::{Place, port_of};
use cal_ast::{Assign, CalPort};
use fil_ast::Stmt;
use fil_share::Use;
use fil_sig::SigEvent;
use hw_bits::Memory;
use hw_graph::{Entry, Groups, gather};
use hw_names::{NameId, Word};
use net_core::Src;
use std::alloc::Global;

/// For each use of the body the number of its instance, as a key.
fn uses_keyed(alloc: Global, body: &Body<'_>) -> Result<Vec<Entry>, Memory>
    requires { (scope : Scope) × ShowsBody body.now scope }
    ensures small { (scope : Scope) → ShowsBody body.now scope → IfOk result (λ entries. All (λ entry. entry.key < length scope.instances) entries.items) }
    ensures keyed { (scope : Scope) → ShowsBody body.now scope → IfOk result (λ entries. (n : ℕ) (inst : Text) → slice_get (instance_names scope.instances) n ≡ Some inst
        → AreUsesOf body.now.names.now body.now.uses.items inst (with_key n entries.items)) }
{
    let mut entries = Vec::new(alloc);
    for (number, used) in body.uses.iter().enumerate() {
        if let Some(key) = body.instances.number(body.names.text(used.inst)) {
            entries.push(Entry { key, value: number })?;
        }
    }
    Ok(entries)
}

/// For each instance, by its number, the numbers of the uses of it.
fn uses_by_instance(alloc: Global, body: &Body<'_>) -> Result<Groups, Memory>
    requires { (scope : Scope) × ShowsBody body.now scope }
    ensures { (scope : Scope) → ShowsBody body.now scope → IfOk result (λ groups. ShowsUses body.now.names.now body.now.uses.items (instance_names scope.instances) groups) }
{
    let entries = uses_keyed(alloc, body)?;
    gather(alloc, &entries, body.instances.len())
}

/// The bit at which a use starts.
fn start_bit(place: &Place<'_>, used: Use) -> CalPort
    requires event { IsNumberOf place.now.body.now.names.now used.on }
    requires known { (l : Lowering) × ShowsPlace place.now l × NamesEvent l.scope.comp (text_of place.now.body.now.names.now used.on)
        × (used.from < length (bits_of l (text_of place.now.body.now.names.now used.on))) }
    ensures bit { (l : Lowering) → ShowsPlace place.now l → port_tree place.now.names.now result ≡ bit_at l (text_of place.now.body.now.names.now used.on) used.from }
    ensures numbers { PortHasNumbers place.now.names.now result }
{
    place.bits_of(used.on)[used.from as usize]
}

/// The bits at which these uses start the event with this number.
fn starting_bits(
    alloc: Global,
    place: &Place<'_>,
    numbers: &[usize],
    event: usize,
) -> Result<Vec<CalPort>, Memory>
    requires { (l : Lowering) × (inst : Text) × ShowsPlace place.now l × AreUsesOf place.now.body.now.names.now place.now.body.now.uses.items inst numbers.now × Starts l inst event }
    ensures bits { (l : Lowering) (inst : Text) → ShowsPlace place.now l → AreUsesOf place.now.body.now.names.now place.now.body.now.uses.items inst numbers.now
        → IfOk result (λ bits. map (port_tree place.now.names.now) bits.items ≡ starting_bits l inst event) }
    ensures numbers { IfOk result (λ bits. All (PortHasNumbers place.now.names.now) bits.items) }
{
    let mut bits = Vec::new(alloc);
    for number in numbers {
        let used = place.body.uses[*number];
        if used.event as usize == event {
            bits.push(start_bit(place, used))?;
        }
    }
    Ok(bits)
}

/// Puts the assignment of an interface port of an instance last, which is 1 at these bits; none where there are no bits.
fn push_start(
    alloc: Global,
    place: &Place<'_>,
    inst: NameId,
    go: &Word,
    bits: &[CalPort],
    sets: &mut Vec<Assign>,
) -> Result<(), Memory>
    requires inst { IsNumberOf place.now.body.now.names.now inst }
    requires bits { All (PortHasNumbers place.now.names.now) bits.now }
    requires go { Contains place.now.names.now go.now }
    requires kept { KeepsTexts place.now.body.now.names.now place.now.names.now }
    ensures sets { OnOk result (map (assignment_tree place.now.names.now) sets.new.items ≡ map (assignment_tree place.now.names.now) sets.old.items
        ++ start_set (text_of place.now.body.now.names.now inst) go.now (map (port_tree place.now.names.now) bits.now)) }
    ensures numbers { All (SetHasNumbers place.now.names.now) sets.old.items → All (SetHasNumbers place.now.names.now) sets.new.items }
{
    if !bits.is_empty() {
        sets.push(Assign {
            dst: port_of(inst, number_of(place.names, go.bytes())),
            guard: Some(any_of(alloc, bits)?),
            src: Src::Lit { width: 1, value: 1 },
        })?;
    }
    Ok(())
}

/// Puts the assignments of the interface ports of an instance last, in the order of its events.
fn push_instance(
    alloc: Global,
    place: &Place<'_>,
    inst: NameId,
    events: &[SigEvent],
    numbers: &[usize],
    sets: &mut Vec<Assign>,
) -> Result<(), Memory>
    requires inst { IsNumberOf place.now.body.now.names.now inst }
    requires known { (l : Lowering) × (sig : Signature) × ShowsPlace place.now l × AreUsesOf place.now.body.now.names.now place.now.body.now.uses.items (text_of place.now.body.now.names.now inst) numbers.now
        × (instance_signature l.scope (text_of place.now.body.now.names.now inst) ≡ Some sig) × (sig.events ≡ map seen_event events.now) }
    ensures sets { (l : Lowering) → ShowsPlace place.now l → AreUsesOf place.now.body.now.names.now place.now.body.now.uses.items (text_of place.now.body.now.names.now inst) numbers.now
        → OnOk result (map (assignment_tree place.now.names.now) sets.new.items
        ≡ map (assignment_tree place.now.names.now) sets.old.items ++ start_sets_from l (text_of place.now.body.now.names.now inst) 0 (map seen_event events.now)) }
    ensures numbers { All (SetHasNumbers place.now.names.now) sets.old.items → All (SetHasNumbers place.now.names.now) sets.new.items }
{
    for (number, event) in events.iter().enumerate() {
        if let Some(go) = &event.go {
            let bits = starting_bits(alloc, place, numbers, number)?;
            push_start(alloc, place, inst, go, &bits, sets)?;
        }
    }
    Ok(())
}

/// Puts the assignments of the interface ports of the instance that a statement makes last.
fn push_statement(
    alloc: Global,
    place: &Place<'_>,
    groups: &Groups,
    stmt: &Stmt,
    sets: &mut Vec<Assign>,
) -> Result<(), Memory>
    requires numbers { StatementHasNumbers place.now.body.now.names.now stmt.now }
    requires known { (l : Lowering) × ShowsPlace place.now l × ShowsUses place.now.body.now.names.now place.now.body.now.uses.items (instance_names l.scope.instances) groups.now }
    ensures sets { (l : Lowering) → ShowsPlace place.now l → ShowsUses place.now.body.now.names.now place.now.body.now.uses.items (instance_names l.scope.instances) groups.now
        → Contains l.scope.comp.body (statement_tree place.now.body.now.names.now stmt.now)
        → OnOk result (map (assignment_tree place.now.names.now) sets.new.items
        ≡ map (assignment_tree place.now.names.now) sets.old.items ++ flat_map (start_sets l) (instances_at (statement_tree place.now.body.now.names.now stmt.now))) }
    ensures numbers { All (SetHasNumbers place.now.names.now) sets.old.items → All (SetHasNumbers place.now.names.now) sets.new.items }
{
    let Some(made) = made(stmt) else {
        return Ok(());
    };
    let instances = &place.body.instances;
    let name = place.body.names.text(made.name);
    let Some(number) = instances.number(name) else {
        return Ok(());
    };
    let numbers = groups.get(number);
    match instances.sig(name) {
        Some(sig) => push_instance(alloc, place, made.name, &sig.events, numbers, sets),
        None => Ok(()),
    }
}

/// Puts the assignments of all interface ports of instances last, instance by instance.
pub(crate) fn push_starts(
    alloc: Global,
    place: &Place<'_>,
    sets: &mut Vec<Assign>,
) -> Result<(), Memory>
    requires { (l : Lowering) × ShowsPlace place.now l }
    ensures sets { (l : Lowering) → ShowsPlace place.now l → OnOk result (map (assignment_tree place.now.names.now) sets.new.items
        ≡ map (assignment_tree place.now.names.now) sets.old.items ++ flat_map (start_sets l) l.scope.instances) }
    ensures numbers { All (SetHasNumbers place.now.names.now) sets.old.items → All (SetHasNumbers place.now.names.now) sets.new.items }
{
    let groups = uses_by_instance(alloc, place.body)?;
    for stmt in &place.body.comp.body {
        push_statement(alloc, place, &groups, stmt, sets)?;
    }
    Ok(())
}
