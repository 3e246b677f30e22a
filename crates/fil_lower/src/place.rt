//! Where assignments are made: a component's body, and the ports of its events' bits.
ghost use Rattle.std.specs.Prelude.{◌≡◌, ◌≢◌, ◌≤◌, [], length, map, None, Some, All, IfOk};
ghost use Rattle.hw_names.specs.Name.{text_of};
ghost use Rattle.net_core.specs.Guard.{guard_option, source_tree};
ghost use Rattle.cal_ast.specs.Numbers.{PortHasNumbers, SourceHasNumbers, WhenHasNumbers};
ghost use Rattle.cal_ast.specs.Tree.{port_tree};
ghost use Rattle.fil_ast.specs.Naming.{NamesEvent};
ghost use Rattle.fil_ast.specs.Numbers.{IsNumberOf, ValueHasNumbers};
ghost use Rattle.fil_ast.specs.Tree.{value_tree};
ghost use Rattle.fil_lower.specs.inside.Lowering.{Lowering, bits_of, during, lowered_value};
ghost use Rattle.fil_lower.specs.inside.Parts.{interval_shown};
ghost use Rattle.fil_lower.specs.inside.Place.{NamesInvocation, ShowsPlace};

use crate::body::Body;
use crate::guards::any_of;
use crate::interval::Interval;
use cal_ast::CalPort;
use fil_ast::Value;
use fil_sig::event_number;
use hw_bits::Memory;
use hw_names::{NameId, Names};
use net_core::{Guard, Src};
use std::alloc::Global;

/// A component's body, with the names of the lowered design and, for each event, the ports of its bits.
#[derive(Drop)]
pub(crate) struct Place<'a> {
    pub names: &'a Names,
    pub body: &'a Body<'a>,
    pub bits: &'a [Vec<CalPort>],
}

/// A port of a cell.
pub(crate) fn port_of(cell: NameId, port: NameId) -> CalPort
    ensures { result ≡ record { cell = Some cell; port = port } }
{
    CalPort {
        cell: Some(cell),
        port,
    }
}

/// A port of the component itself.
pub(crate) fn own(port: NameId) -> CalPort
    ensures { result ≡ record { cell = None; port = port } }
{
    CalPort { cell: None, port }
}

impl<'a> Place<'a> {
    /// The ports of the bits of an event.
    pub(crate) fn bits_of(&self, event: NameId) -> &[CalPort]
        requires event { IsNumberOf self.now.body.now.names.now event }
        requires known { (l : Lowering) × ShowsPlace self.now l × NamesEvent l.scope.comp (text_of self.now.body.now.names.now event) }
        ensures bits { (l : Lowering) → ShowsPlace self.now l → map (port_tree self.now.names.now) result.now ≡ bits_of l (text_of self.now.body.now.names.now event) }
        ensures numbers { All (PortHasNumbers self.now.names.now) result.now }
    {
        let number = event_number(self.body.names, &self.body.comp.events, event);
        self.bits[number as usize].as_slice()
    }

    /// The rows in which an argument drives: those of the interval after a start of its event, and all rows where the
    /// event has no interface port.
    pub(crate) fn during(
        &self,
        alloc: Global,
        interval: Interval,
    ) -> Result<Option<Guard<CalPort>>, Memory>
        requires event { IsNumberOf self.now.body.now.names.now interval.event }
        requires ordered { interval.from ≤ interval.to }
        requires known { (l : Lowering) × ShowsPlace self.now l × NamesEvent l.scope.comp (text_of self.now.body.now.names.now interval.event)
            × (bits_of l (text_of self.now.body.now.names.now interval.event) ≢ [] → interval.to ≤ length (bits_of l (text_of self.now.body.now.names.now interval.event))) }
        ensures guard { (l : Lowering) → ShowsPlace self.now l
            → IfOk result (λ guard. guard_option (port_tree self.now.names.now) guard ≡ during l (interval_shown self.now.body.now.names.now interval)) }
        ensures numbers { IfOk result (WhenHasNumbers self.now.names.now) }
    {
        let bits = self.bits_of(interval.event);
        if bits.is_empty() {
            return Ok(None);
        }
        let from = interval.from as usize;
        let to = interval.to as usize;
        Ok(Some(any_of(alloc, &bits[from..to])?))
    }

    /// What a value is read from.
    pub(crate) fn source(&self, value: Value) -> Src<CalPort>
        requires value { ValueHasNumbers self.now.body.now.names.now value }
        requires known { (l : Lowering) × ShowsPlace self.now l × NamesInvocation l.scope.invocations (value_tree self.now.body.now.names.now value) }
        ensures source { (l : Lowering) → ShowsPlace self.now l → source_tree (port_tree self.now.names.now) result ≡ lowered_value l (value_tree self.now.body.now.names.now value) }
        ensures numbers { SourceHasNumbers self.now.names.now result }
    {
        match value {
            Value::Port(port) => Src::Port(own(port)),
            Value::Out(invocation, port) => {
                let inst = self.body.calls.inst(self.body.names.text(invocation));
                Src::Port(port_of(inst, port))
            }
            Value::Lit { width, value } => Src::Lit { width, value },
        }
    }
}
