//! What the body of a component says, in tables that are looked up by name, and the bits that it wants of its events.
ghost use Rattle.std.specs.Prelude.{◌≡◌, ◌<◌, ◌≤◌, ◌++◌, List, [], length, map, flat_map, take, slice_get, Some, All, IfOk};
ghost use Rattle.std.specs.Option.{option_map_or};
ghost use Rattle.hw_names.specs.Name.{Text};
ghost use Rattle.fil_ast.specs.Limits.{KeepsStatementLimit, KeepsTimeLimit};
ghost use Rattle.fil_ast.specs.Naming.{component_names};
ghost use Rattle.fil_ast.specs.Numbers.{IsNumberOf, StatementHasNumbers, TimeHasNumber};
ghost use Rattle.fil_ast.specs.Scope.{invocations_at};
ghost use Rattle.fil_ast.specs.Timeline.{interval_at};
ghost use Rattle.fil_ast.specs.Tree.{Component, design_of, statement_tree, time_tree};
ghost use Rattle.fil_ast.specs.Wires.{whole_scope};
ghost use Rattle.fil_sig.specs.Seen.{seen_port};
ghost use Rattle.fil_share.specs.Uses.{IsGoodUse, shown_use};
ghost use Rattle.hw_limits.specs.declared.limits.TheConstants.{MOST_ROWS};
ghost use Rattle.fil_lower.specs.inside.Lowering.{Lowering, wanted_by, wants_in};
ghost use Rattle.fil_lower.specs.inside.Parts.{IsGoodPort};
ghost use Rattle.fil_lower.specs.inside.Place.{ShowsBody, greatest, wanted_by_ports, wanted_by_uses};

use crate::calls::Calls;
use crate::interval::interval_at;
use crate::parts::invoked;
use fil_ast::{FilComp, FilOk, Stmt, Time};
use fil_share::{Instances, Use, component_uses};
use fil_sig::SigPort;
use hw_bits::Memory;
use hw_names::Names;
use std::alloc::Global;

/// A component with its instances, its invocations and what they use. Numbers of names are those of `names`, the
/// names of the Filament design.
#[derive(Drop)]
pub(crate) struct Body<'a> {
    pub names: &'a Names,
    pub comp: &'a FilComp,
    pub instances: Instances,
    pub calls: Calls,
    pub uses: Vec<Use>,
}

impl<'a> Body<'a> {
    /// The body of the component with this number, where `known` are the names of the components before it.
    pub(crate) fn make(
        alloc: Global,
        ok: &FilOk<'a>,
        known: &Names,
        number: usize,
    ) -> Result<Body<'a>, Memory>
        requires number { number < length ok.now.comps.items }
        requires known { known.now ≡ component_names (take number (design_of ok.now)) }
        ensures names { IfOk result (λ body. body.names.now ≡ ok.now.names) }
        ensures shown { (c : Component) → slice_get (design_of ok.now) number ≡ Some c
            → IfOk result (λ body. ShowsBody body (whole_scope (take number (design_of ok.now)) c)) }
    {
        let design = ok.design();
        let names = &design.names;
        let comp = &design.comps[number];
        let instances = Instances::make(alloc, ok, known, number)?;
        let calls = Calls::of_component(alloc, names, comp)?;
        let uses = component_uses(alloc, names, &instances, comp)?;
        Ok(Body {
            names,
            comp,
            instances,
            calls,
            uses,
        })
    }

    /// The last bit that the arguments of a statement's invocation want of the event of this name.
    fn last_of_statement(&self, stmt: &Stmt, event: &[u8]) -> u64
        requires numbers { StatementHasNumbers self.now.names.now stmt.now }
        requires small { KeepsStatementLimit stmt.now }
        requires body { (l : Lowering) × ShowsBody self.now l.scope }
        ensures value { (l : Lowering) → ShowsBody self.now l.scope
            → result ≡ greatest (flat_map (wanted_by_ports l event.now) (invocations_at (statement_tree self.now.names.now stmt.now))) }
        ensures small { result < MOST_ROWS }
    {
        let Some(call) = invoked(stmt) else {
            return 0;
        };
        match self.instances.sig(self.names.text(call.inst)) {
            Some(sig) => last_of_call(self.names, call.at, &sig.ins, event),
            None => 0,
        }
    }

    /// The last bit that arguments want of the event of this name; 0 where they want none.
    fn last_of_arguments(&self, event: &[u8]) -> u64
        requires { (l : Lowering) × ShowsBody self.now l.scope }
        ensures value { (l : Lowering) → ShowsBody self.now l.scope → result ≡ greatest (flat_map (wanted_by_ports l event.now) l.scope.invocations) }
        ensures small { result < MOST_ROWS }
    {
        let mut last = 0;
        for stmt in &self.comp.body {
            last = last.max(self.last_of_statement(stmt, event));
        }
        last
    }

    /// The last bit that the body wants of the event of this name; 0 where it wants none.
    pub(crate) fn last_bit(&self, event: &[u8]) -> u64
        requires { (l : Lowering) × ShowsBody self.now l.scope }
        ensures value { (l : Lowering) → ShowsBody self.now l.scope → result ≡ greatest (flat_map (wanted_by l event.now) l.scope.invocations) }
        ensures small { result < MOST_ROWS }
    {
        self.last_of_arguments(event)
            .max(last_of_uses(self.names, &self.uses, event))
    }
}

/// The last bit that an argument for the port wants of an event, where the callee's events are at these times.
fn last_of_argument(names: &Names, at: &[Time], port: &SigPort, event: &[u8]) -> u64
    requires numbers { All (TimeHasNumber names.now) at.now }
    requires times { All KeepsTimeLimit at.now }
    requires port { IsGoodPort (seen_port port.now) }
    ensures value { (l : Lowering) → result ≡ greatest (option_map_or (wants_in l event.now) (interval_at (map (time_tree names.now) at.now) (seen_port port.now)) []) }
    ensures small { result < MOST_ROWS }
{
    match interval_at(at, port) {
        Some(interval) => {
            if names.text(interval.event) == event {
                interval.to.saturating_sub(1)
            } else {
                0
            }
        }
        None => 0,
    }
}

/// The last bit that arguments for these ports want of an event.
fn last_of_call(names: &Names, at: &[Time], ports: &[SigPort], event: &[u8]) -> u64
    requires numbers { All (TimeHasNumber names.now) at.now }
    requires times { All KeepsTimeLimit at.now }
    requires ports { All IsGoodPort (map seen_port ports.now) }
    ensures value { (l : Lowering) → result ≡ greatest (flat_map (λ port. option_map_or (wants_in l event.now) (interval_at (map (time_tree names.now) at.now) port) []) (map seen_port ports.now)) }
    ensures small { result < MOST_ROWS }
{
    let mut last = 0;
    for port in ports {
        last = last.max(last_of_argument(names, at, port, event));
    }
    last
}

/// The last bit at which one of the uses starts.
fn last_of_uses(names: &Names, uses: &[Use], event: &[u8]) -> u64
    requires { All (IsGoodUse names.now) uses.now }
    ensures value { result ≡ greatest (wanted_by_uses event.now (map (shown_use names.now) uses.now)) }
    ensures small { result < MOST_ROWS }
{
    let mut last = 0;
    for used in uses {
        if names.text(used.on) == event {
            last = last.max(used.from);
        }
    }
    last
}
