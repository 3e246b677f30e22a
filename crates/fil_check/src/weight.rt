//! The weight of a component: what its rows cost, with those of the components of its instances.
ghost use Rattle.std.specs.Prelude.{◌≡◌, ◌+◌, ◌<◌, ◌≤◌, List, [], ◌∷◌, ◌++◌, length, map, max, reverse, slice_get, slice_index_or, slice_set, sum, take, Some, IfOk};
ghost use Rattle.hw_names.specs.Name.{AreDistinct, Text, text_of};
ghost use Rattle.fil_ast.specs.Limits.{KeepsLimits};
ghost use Rattle.fil_ast.specs.Numbers.{ComponentHasNumbers, IsNumberOf, StatementHasNumbers};
ghost use Rattle.fil_ast.specs.Rules.{KeepsComponent, all_rules};
ghost use Rattle.fil_ast.specs.Scope.{Invocation, Scope, instances_at};
ghost use Rattle.fil_ast.specs.Timeline as tree;
ghost use Rattle.fil_ast.specs.Timeline.{interval_at};
ghost use Rattle.fil_ast.specs.Tree.{Component, Design, TimeAt, component_tree, design_of, statement_tree};
ghost use Rattle.fil_ast.specs.Weight.{intervals_listed, needs_in, needs_of, times_in, told_weight, weight_of};
ghost use Rattle.fil_ast.specs.Wires.{whole_scope};
ghost use Rattle.fil_ast.specs.declared.tree.FilComp.{FilComp};
ghost use Rattle.fil_sig.specs.Seen.{seen_port};
ghost use Rattle.fil_place.specs.Place.{IsPlaceIn};
ghost use Rattle.fil_place.specs.Tables.{IsPlace, ShowsEarlier};
ghost use Rattle.fil_place.specs.Times.{AreTimes, ShowsInterval, time_shown};
ghost use Rattle.fil_check.specs.inside.Weights.{AreWeights, IsAsked, capped, instances_weight, needs_for, weight_after};

use fil_ast::{FilComp, FilOk, Stmt};
use fil_place::{
    Earlier, Interval, Offset, Place, Tables, add_component, callee_at, interval_at, tables_of,
};
use fil_sig::SigPort;
use hw_bits::Memory;
use hw_names::{NameId, Names};
use std::alloc::Global;

/// What the invocations of a component ask for.
#[derive(Drop)]
struct Asked {
    /// In how many rows they need their arguments, all together.
    rows: u128,
    /// For each event of the component, the greatest among the ends of needs on it and the offsets of times on it.
    greatest: Vec<u128>,
}

impl Asked {
    /// Nothing is asked for, of so many events.
    fn new(alloc: Global, events: usize) -> Result<Asked, Memory>
        ensures { (names : List Text) → length names ≡ events → IfOk result (IsAsked names [] []) }
    {
        Ok(Asked {
            rows: 0,
            greatest: vec![in alloc; 0; events]?,
        })
    }

    /// The event is used up to this row.
    fn reach(&mut self, event: usize, row: u128)
        ensures rows { self.new.rows ≡ self.old.rows }
        ensures greatest { self.new.greatest.items ≡ slice_set self.old.greatest.items event (max (slice_index_or self.old.greatest.items event 0) row) }
    {
        if event < self.greatest.len() {
            self.greatest[event] = self.greatest[event].max(row);
        }
    }

    /// An argument is needed in the interval.
    fn need(&mut self, interval: Interval)
        ensures { (events : List Text) (needs : List tree.Interval) (times : List TimeAt) (need : tree.Interval) → AreDistinct events
            → ShowsInterval events (Some interval) (Some need) → IsAsked events needs times self.old
            → IsAsked events (needs ++ need ∷ []) times self.new }
    {
        let rows = interval.to.saturating_sub(interval.from);
        self.rows = self.rows.saturating_add(rows);
        self.reach(interval.event, interval.to);
    }

    /// The argument for an input of a callee is needed, where the callee's events are at these times.
    fn need_input(&mut self, port: &SigPort, at: &[Offset])
        ensures { (events : List Text) (needs : List tree.Interval) (times gives : List TimeAt) → AreDistinct events
            → AreTimes events at.now gives → IsAsked events needs times self.old
            → IsAsked events (needs ++ intervals_listed (interval_at gives (seen_port port.now))) times self.new }
    {
        match interval_at(at, port) {
            Some(interval) => self.need(interval),
            None => {}
        }
    }

    /// The arguments of an invocation at these times are needed.
    fn need_inputs(&mut self, ins: &[SigPort], at: &[Offset])
        ensures { (events : List Text) (needs : List tree.Interval) (times gives : List TimeAt) → AreDistinct events
            → AreTimes events at.now gives → IsAsked events needs times self.old
            → IsAsked events (needs ++ needs_for gives (map seen_port ins.now)) times self.new }
    {
        for port in ins {
            self.need_input(port, at);
        }
    }

    /// The time is used.
    fn reach_time(&mut self, time: Offset)
        ensures { (events : List Text) (needs : List tree.Interval) (times : List TimeAt) (given : TimeAt) → AreDistinct events
            → time_shown events time ≡ Some given → IsAsked events needs times self.old
            → IsAsked events needs (times ++ given ∷ []) self.new }
    {
        self.reach(time.event, time.plus as u128);
    }

    /// The times are used.
    fn reach_times(&mut self, at: &[Offset])
        ensures { (events : List Text) (needs : List tree.Interval) (times gives : List TimeAt) → AreDistinct events
            → AreTimes events at.now gives → IsAsked events needs times self.old
            → IsAsked events needs (times ++ gives) self.new }
    {
        for time in at {
            self.reach_time(*time);
        }
    }

    /// The instance with this number is invoked at these times.
    fn invoke(&mut self, earlier: &Earlier, tables: &Tables, instance: usize, at: &[Offset])
        ensures { (names : List Text) (comp : FilComp) (scope : Scope) (v : Invocation) (needs : List tree.Interval) (times : List TimeAt)
            → IsPlace names earlier.now comp tables.now scope → AreDistinct tables.now.events
            → slice_get tables.now.instances instance ≡ Some v.inst → AreTimes tables.now.events at.now v.gives.times
            → IsAsked tables.now.events needs times self.old
            → IsAsked tables.now.events (needs ++ needs_of scope v) (times ++ v.gives.times) self.new }
    {
        match callee_at(earlier, tables, instance) {
            Some(callee) => {
                self.need_inputs(&callee.sig().ins, at);
                self.reach_times(at);
            }
            None => self.reach_times(at),
        }
    }
}

/// What the invocations that the tables show ask for.
fn asked_by(alloc: Global, earlier: &Earlier, tables: &Tables) -> Result<Asked, Memory>
    ensures { (names : List Text) (comp : FilComp) (scope : Scope) → IsPlace names earlier.now comp tables.now scope
        → AreDistinct tables.now.events
        → IfOk result (IsAsked tables.now.events (needs_in scope) (times_in scope)) }
{
    let mut asked = Asked::new(alloc, tables.events.len())?;
    for (instance, at) in tables.invoked.iter().zip(&tables.times) {
        asked.invoke(earlier, tables, *instance, at);
    }
    Ok(asked)
}

/// The sum of the numbers.
fn total(numbers: &[u128]) -> u128
    ensures { result ≡ capped (sum numbers.now) }
{
    let mut total: u128 = 0;
    for number in numbers {
        total = total.saturating_add(*number);
    }
    total
}

/// The weight of the component of a name, where these are the weights of the components before; 0 where there is none.
fn weight_named(names: &Names, earlier: &Earlier, weights: &[u128], made: NameId) -> u128
    requires { IsNumberOf names.now made }
    ensures { (comps : Design) → ShowsEarlier earlier.now comps → AreWeights comps weights.now
        → result ≡ capped (weight_of (reverse comps) (text_of names.now made)) }
{
    match earlier.names.find(names.text(made)) {
        Some(number) => weights.get(number.0 as usize).copied().unwrap_or(0),
        None => 0,
    }
}

/// The weight of the component of the instance that a statement makes, if it makes one.
fn weight_at(names: &Names, earlier: &Earlier, weights: &[u128], stmt: &Stmt) -> u128
    requires { StatementHasNumbers names.now stmt.now }
    ensures { (comps : Design) → ShowsEarlier earlier.now comps → AreWeights comps weights.now
        → result ≡ capped (instances_weight comps (instances_at (statement_tree names.now stmt.now))) }
{
    match stmt {
        Stmt::New { comp, .. } => weight_named(names, earlier, weights, *comp),
        Stmt::Both { comp, .. } => weight_named(names, earlier, weights, *comp),
        Stmt::Call { .. } => 0,
        Stmt::Set { .. } => 0,
    }
}

/// The weights of the components of a component's instances, each instance once.
fn weight_of_instances(names: &Names, earlier: &Earlier, weights: &[u128], comp: &FilComp) -> u128
    requires { ComponentHasNumbers names.now comp.now }
    ensures { (comps : Design) → ShowsEarlier earlier.now comps → AreWeights comps weights.now
        → result ≡ capped (instances_weight comps (whole_scope comps (component_tree names.now comp.now)).instances) }
{
    let mut total: u128 = 0;
    for stmt in &comp.body {
        total = total.saturating_add(weight_at(names, earlier, weights, stmt));
    }
    total
}

/// The weight of a component of which the tables show the whole body.
fn weight(alloc: Global, place: &Place, weights: &[u128]) -> Result<u128, Memory>
    requires { ComponentHasNumbers place.now.names.now place.now.comp.now }
    ensures { (comps : Design) → IsPlaceIn place.now (whole_scope comps (component_tree place.now.names.now place.now.comp.now))
        → AreDistinct place.now.tables.now.events → AreWeights comps weights.now
        → IfOk result (λ weight. weight ≡ capped (weight_after comps (component_tree place.now.names.now place.now.comp.now))) }
{
    let asked = asked_by(alloc, place.earlier, place.tables)?;
    let ports = place.comp.gos.len() as u128
        + place.comp.ins.len() as u128
        + place.comp.outs.len() as u128;
    let own = 1 + ports + place.comp.body.len() as u128;
    Ok(
        own.saturating_add(asked.rows)
            .saturating_add(total(&asked.greatest))
            .saturating_add(weight_of_instances(place.names, place.earlier, weights, place.comp)),
    )
}

/// The weight of a component that keeps the rules, after the components before it and with their weights.
fn weigh(
    alloc: Global,
    names: &Names,
    earlier: &Earlier,
    weights: &[u128],
    comp: &FilComp,
) -> Result<u128, Memory>
    requires numbers { ComponentHasNumbers names.now comp.now }
    requires small { KeepsLimits comp.now }
    ensures { (comps : Design) → ShowsEarlier earlier.now comps → KeepsComponent all_rules comps (component_tree names.now comp.now)
        → AreWeights comps weights.now
        → IfOk result (λ weight. weight ≡ capped (weight_after comps (component_tree names.now comp.now))) }
{
    let tables = tables_of(alloc, names, earlier, comp)?;
    let place = Place {
        names,
        earlier,
        comp,
        tables: &tables,
    };
    weight(alloc, &place, weights)
}

/// The weights of so many components of a design, the first ones, in their order.
fn weights_of(alloc: Global, ok: &FilOk, count: usize) -> Result<Vec<u128>, Memory>
    requires { count ≤ length (design_of ok.now) }
    ensures { IfOk result (λ weights. AreWeights (take count (design_of ok.now)) weights.items) }
{
    let design = ok.design();
    let mut earlier = Earlier {
        names: design.names.beside(),
        callees: Vec::new(alloc),
    };
    let mut weights = Vec::new(alloc);
    for comp in &design.comps[..count] {
        let weight = weigh(alloc, &design.names, &earlier, &weights, comp)?;
        weights.push(weight)?;
        add_component(alloc, &design.names, &mut earlier, comp)?;
    }
    Ok(weights)
}

/// The weight of the component with this number, with the weights of the components of its instances, each instance
/// once; from `2^64 - 1` on, that.
pub fn fil_weight(alloc: Global, ok: &FilOk, comp: usize) -> Result<u64, Memory>
    requires { comp < length (design_of ok.now) }
    ensures { IfOk result (λ weight. (c : Component) → slice_get (design_of ok.now) comp ≡ Some c → weight ≡ told_weight (design_of ok.now) c) }
{
    // Read for what it ensures: components have different names.
    let _design = ok.design();
    let weights = weights_of(alloc, ok, comp + 1)?;
    Ok(weights[comp].min(u64::MAX as u128) as u64)
}
