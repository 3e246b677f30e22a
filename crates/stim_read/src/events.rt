//! The events of a signature, each with its data inputs.
ghost use Rattle.std.specs.Prelude.{◌≡◌, ◌<◌, None, length, map, IfOk, MatchOption};
ghost use Rattle.fil_sig.specs.Seen.{seen, seen_delay, seen_event, seen_port};
ghost use Rattle.fil_sig.specs.declared.time_sig.SigEvent.{SigEvent};
ghost use Rattle.hw_names.specs.Name.{AreDistinct};
ghost use Rattle.stim_read.specs.TxEvents.{rows_of, ports_after, port_targets, greatest_end, interface_end, event_of, events_of, event_names, event_seen, events_seen};
ghost use Rattle.stim_read.specs.TxRules.{event_number, event_by};

use crate::places::{keyed_by, place};
use crate::tx_text::EventName;
use fil_sig::{Delay, SigEvent, SigPort, TimeSig, add_name};
use hw_bits::Memory;
use hw_names::{Names, Word};
use std::alloc::Global;

/// What a stimulus has to know of an event: how many rows its starts are apart at least, the greatest end among
/// the intervals of its ports, and the names and widths of its data inputs.
#[derive(Drop)]
pub(crate) struct EventInputs {
    pub delay: u64,
    pub end: u64,
    pub names: Names,
    pub widths: Vec<u8>,
}

/// The events, by their names.
#[derive(Drop)]
pub(crate) struct Events {
    pub names: Names,
    pub inputs: Vec<EventInputs>,
}

/// How many rows starts of the event are apart at least.
fn rows_of(delay: Delay) -> u64
    ensures { result ≡ rows_of (seen_delay delay) }
{
    match delay {
        Delay::Fixed(rows) => rows,
        Delay::Gap | Delay::End => 0,
    }
}

/// The greatest end among the intervals of these ports that go by the event with this number.
fn greatest_end(ports: &[SigPort], event: usize) -> u64
    ensures { result ≡ greatest_end (ports_after event (map seen_port ports.now)) }
{
    let mut greatest = 0;
    for port in ports {
        if usize::from(port.from.event) == event {
            greatest = greatest.max(port.to.plus);
        }
    }
    greatest
}

/// The row after the start in which an interface port's interval ends.
fn interface_end(go: &Option<Word>) -> u64
    ensures { result ≡ interface_end go.now }
{
    match go {
        Some(_) => 1,
        None => 0,
    }
}

/// The names of the data inputs whose intervals go by the event with this number.
fn names_after(alloc: Global, ins: &[SigPort], event: usize) -> Result<Names, Memory>
    requires { AreDistinct (port_targets (map seen_port ins.now)).names }
    ensures { IfOk result (λ names. names ≡ (port_targets (ports_after event (map seen_port ins.now))).names) }
{
    let mut names = Names::hashed_by(alloc, keyed_by(ins, |port| &port.name));
    for port in ins {
        if usize::from(port.from.event) == event {
            let new = add_name(&mut names, port.name.bytes())?;
            prove!(new);
        }
    }
    Ok(names)
}

/// The widths of the data inputs whose intervals go by the event with this number.
fn widths_after(alloc: Global, ins: &[SigPort], event: usize) -> Result<Vec<u8>, Memory>
    ensures { IfOk result (λ widths. widths.items ≡ (port_targets (ports_after event (map seen_port ins.now))).widths) }
{
    let mut widths = Vec::new(alloc);
    for port in ins {
        if usize::from(port.from.event) == event {
            widths.push(port.width)?;
        }
    }
    Ok(widths)
}

/// What a stimulus has to know of the event with this number.
fn event_inputs(
    alloc: Global,
    sig: &TimeSig,
    number: usize,
    event: &SigEvent,
) -> Result<EventInputs, Memory>
    requires { AreDistinct (port_targets (seen sig.now).ins).names }
    ensures { IfOk result (λ e. event_seen e ≡ event_of (seen sig.now) number (seen_event event.now)) }
{
    let end = greatest_end(&sig.ins, number)
        .max(greatest_end(&sig.outs, number))
        .max(interface_end(&event.go));
    let names = names_after(alloc, &sig.ins, number)?;
    let widths = widths_after(alloc, &sig.ins, number)?;
    Ok(EventInputs {
        delay: rows_of(event.delay),
        end,
        names,
        widths,
    })
}

/// The events' names, which differ.
fn names_of(alloc: Global, events: &[SigEvent]) -> Result<Names, Memory>
    requires { AreDistinct (map (λ (e : SigEvent). e.name) events.now) }
    ensures { IfOk result (λ names. names ≡ map (λ (e : SigEvent). e.name) events.now) }
{
    let mut names = Names::hashed_by(alloc, keyed_by(events, |event| &event.name));
    for event in events {
        let new = add_name(&mut names, event.name.bytes())?;
        prove!(new);
    }
    Ok(names)
}

/// What a stimulus has to know of each event.
fn inputs_of(alloc: Global, sig: &TimeSig) -> Result<Vec<EventInputs>, Memory>
    requires { AreDistinct (port_targets (seen sig.now).ins).names }
    ensures { IfOk result (λ inputs. map event_seen inputs.items ≡ (events_of (seen sig.now)).events) }
{
    let mut inputs = Vec::new(alloc);
    for (number, event) in sig.events.iter().enumerate() {
        inputs.push(event_inputs(alloc, sig, number, event)?)?;
    }
    Ok(inputs)
}

impl Events {
    /// The events of a signature.
    pub fn of(alloc: Global, sig: &TimeSig) -> Result<Events, Memory>
        requires events { AreDistinct (event_names (seen sig.now)) }
        requires inputs { AreDistinct (port_targets (seen sig.now).ins).names }
        ensures { IfOk result (λ events. events_seen events ≡ events_of (seen sig.now)) }
    {
        let names = names_of(alloc, &sig.events)?;
        let inputs = inputs_of(alloc, sig)?;
        Ok(Events { names, inputs })
    }

    /// The number of the event; `None` where there is no such event.
    pub fn number(&self, name: &EventName) -> Option<usize>
        requires { length self.now.names ≡ length self.now.inputs.items }
        ensures { MatchOption result (event_by (events_seen self.now) name.now ≡ None)
            (λ number. (number ≡ event_number self.now.names name.now) × (number < length self.now.inputs.items)) }
    {
        match name {
            EventName::First if self.inputs.is_empty() => None,
            EventName::First => Some(0),
            EventName::Named(name) => place(&self.names, name.bytes()),
        }
    }
}
