//! The shift registers of a component's events.
ghost use Rattle.std.specs.Prelude.{◌≡◌, [], ◌∷◌, ◌++◌, IfOk, OnOk};
ghost use Rattle.hw_names.specs.Name.{KeepsTexts, text_of};
ghost use Rattle.fil_ast.specs.Numbers.{IsNumberOf};
ghost use Rattle.fil_ast.specs.Scope.{Scope};
ghost use Rattle.fil_lower.specs.inside.Place.{ShowsBody, ShowsEvent, ShowsRegisters};

use crate::body::Body;
use cal_ast::{Assign, CalCell, CalPort};
use fil_fsm::{FsmParts, shift_register};
use fil_sig::interface_of;
use hw_bits::Memory;
use hw_names::{NameId, Names};
use std::alloc::Global;

/// The cells and assignments of shift registers, and for each event the ports of its bits: none of an event without an
/// interface port.
#[derive(Drop)]
pub(crate) struct EventBits {
    pub cells: Vec<CalCell>,
    pub sets: Vec<Assign>,
    pub bits: Vec<Vec<CalPort>>,
}

impl EventBits {
    /// The shift registers of the events of a component. The names of their cells are added to `names`.
    pub(crate) fn make(
        alloc: Global,
        names: &mut Names,
        body: &Body<'_>,
    ) -> Result<EventBits, Memory>
        requires body { (scope : Scope) × ShowsBody body.now scope }
        requires names { KeepsTexts body.now.names.now names.old }
        ensures kept { KeepsTexts names.old names.new }
        ensures made { (scope : Scope) → ShowsBody body.now scope → IfOk result (ShowsRegisters names.old names.new scope) }
    {
        let mut made = EventBits {
            cells: Vec::new(alloc),
            sets: Vec::new(alloc),
            bits: Vec::new(alloc),
        };
        for event in &body.comp.events {
            let parts = event_parts(alloc, names, body, event.name)?;
            made.add(parts)?;
        }
        Ok(made)
    }

    /// Puts the bits of the next event last.
    fn add(&mut self, parts: FsmParts) -> Result<(), Memory>
        ensures cells { OnOk result (self.new.cells.items ≡ self.old.cells.items ++ parts.cells.items) }
        ensures sets { OnOk result (self.new.sets.items ≡ self.old.sets.items ++ parts.sets.items) }
        ensures bits { OnOk result (self.new.bits.items ≡ self.old.bits.items ++ parts.bits ∷ []) }
    {
        let FsmParts {
            mut cells,
            mut sets,
            bits,
        } = parts;
        self.cells.append(&mut cells)?;
        self.sets.append(&mut sets)?;
        self.bits.push(bits)?;
        Ok(())
    }
}

/// The shift register of an event, with as many bits as the body wants; nothing where the event has no interface port.
fn event_parts(
    alloc: Global,
    names: &mut Names,
    body: &Body<'_>,
    event: NameId,
) -> Result<FsmParts, Memory>
    requires body { (scope : Scope) × ShowsBody body.now scope }
    requires names { KeepsTexts body.now.names.now names.old }
    requires event { IsNumberOf body.now.names.now event }
    ensures kept { KeepsTexts names.old names.new }
    ensures parts { (scope : Scope) → ShowsBody body.now scope → IfOk result (ShowsEvent names.old names.new scope (text_of body.now.names.now event)) }
{
    let event = body.names.text(event);
    match interface_of(body.names, &body.comp.gos, event) {
        Some(port) => {
            let go = CalPort { cell: None, port };
            shift_register(alloc, names, go, body.last_bit(event) + 1)
        }
        None => Ok(FsmParts {
            cells: Vec::new(alloc),
            sets: Vec::new(alloc),
            bits: Vec::new(alloc),
        }),
    }
}
