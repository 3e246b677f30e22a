//! Filament's primitives: their names, their timings and their signatures.
ghost use Rattle.std.specs.Prelude.{◌≡◌, ℕ, ◌+◌, ◌≤◌, map, filter, take, drop, length, option_map, IfOk};
ghost use Rattle.hw_prims.specs.Filament.{is_data_pin};
ghost use Rattle.fil_ast.specs.Primitives.{event, signature_by, table_name, timing_of};
ghost use Rattle.hw_prims.specs.Table.{IsMade, pin, pins_of};
ghost use Rattle.fil_sig.specs.inside.Kinds.{names_listed, port_in, table_name_in, timing_by};
ghost use Rattle.fil_sig.specs.Seen.{seen, seen_delay, seen_event, seen_offset, seen_port};

use crate::time_sig::{Delay, Off, SigEvent, SigPort, TimeSig};
use hw_bits::Memory;
use hw_names::Word;
use hw_prims::Prim;
use std::alloc::Global;

/// Filament's names, each with the table's name of the same primitive.
const NAMES: [(&str, &str); 16] = [
    ("Add", "std_add"),
    ("Sub", "std_sub"),
    ("And", "std_and"),
    ("Or", "std_or"),
    ("Xor", "std_xor"),
    ("Eq", "std_eq"),
    ("Lt", "std_lt"),
    ("Not", "std_not"),
    ("Mux", "fil_mux"),
    ("Slice", "fil_slice"),
    ("Extend", "std_pad"),
    ("Concat", "fil_concat"),
    ("Delay", "fil_delay"),
    ("FastMult", "fil_fast_mult"),
    ("Reg", "std_reg"),
    ("SeqMult", "fil_seq_mult"),
];

/// The row of a use's start, and the row after it.
const START: Off = Off { event: 0, plus: 0 };

const NEXT: Off = Off { event: 0, plus: 1 };

/// The table's name of a Filament primitive; `None` where no Filament primitive has the name.
pub fn table_name(name: &[u8]) -> Option<&'static str>
    ensures { option_map (λ text. text.now) result ≡ table_name name.now }
{
    table_name_in(&NAMES, name)
}

/// The table's name of a Filament name, by these rows.
fn table_name_in(rows: &[(&str, &'static str)], name: &[u8]) -> Option<&'static str>
    ensures { option_map (λ text. text.now) result ≡ table_name_in (names_listed rows.now) name.now }
{
    for (filament, table) in rows {
        if name == filament.as_bytes() {
            return Some(*table);
        }
    }
    None
}

/// How a primitive is timed.
#[derive(Clone, Copy)]
pub enum Kind {
    /// Written at one event, held until another.
    Register,
    /// Busy for three rows; the output comes two rows after the start.
    SeqMult,
    /// The output comes two rows after the start.
    FastMult,
    /// The output comes in the row after the start.
    NextRow,
    /// The output comes in the row of the start.
    SameRow,
}

impl Kind {
    /// The kind of a Filament primitive.
    fn of(name: &[u8]) -> Kind
        ensures { timing_by result ≡ timing_of name.now }
    {
        if name == "Reg".as_bytes() {
            Kind::Register
        } else if name == "SeqMult".as_bytes() {
            Kind::SeqMult
        } else if name == "FastMult".as_bytes() {
            Kind::FastMult
        } else if name == "Delay".as_bytes() {
            Kind::NextRow
        } else {
            Kind::SameRow
        }
    }

    /// When the output comes.
    fn from(self) -> Off
        ensures { seen_offset result ≡ (timing_by self).from }
    {
        let plus = match self {
            Kind::Register => 1,
            Kind::SeqMult => 2,
            Kind::FastMult => 2,
            Kind::NextRow => 1,
            Kind::SameRow => 0,
        };
        Off { event: 0, plus }
    }

    /// When the output is gone.
    fn to(self) -> Off
        ensures { seen_offset result ≡ (timing_by self).to }
    {
        match self {
            Kind::Register => Off { event: 1, plus: 0 },
            Kind::SeqMult => Off { event: 0, plus: 3 },
            Kind::FastMult => Off { event: 0, plus: 3 },
            Kind::NextRow => Off { event: 0, plus: 2 },
            Kind::SameRow => Off { event: 0, plus: 1 },
        }
    }

    /// The events that a use gives times for.
    fn events(self, alloc: Global) -> Result<Vec<SigEvent>, Memory>
        ensures { IfOk result (λ events. map seen_event events.items ≡ (timing_by self).events) }
    {
        let mut events = Vec::new(alloc);
        match self {
            Kind::Register => {
                events.push(event(alloc, "G", Delay::Gap, Some("write_en"))?)?;
                events.push(event(alloc, "L", Delay::End, None)?)?;
            }
            Kind::SeqMult => events.push(event(alloc, "G", Delay::Fixed(3), Some("go"))?)?,
            _ => events.push(event(alloc, "G", Delay::Fixed(1), None)?)?,
        }
        Ok(events)
    }
}

/// An event of these texts.
fn event(alloc: Global, name: &str, delay: Delay, go: Option<&str>) -> Result<SigEvent, Memory>
    ensures { IfOk result (λ e. seen_event e ≡ event name.now (seen_delay delay) (option_map (λ text. text.now) go.entry)) }
{
    let name = Word::make(alloc, name.as_bytes())?;
    let go = match go {
        Some(text) => Some(Word::make(alloc, text.as_bytes())?),
        None => None,
    };
    Ok(SigEvent { name, delay, go })
}

/// Whether a pin is a data port: no interface port, and no `done`.
fn is_data(name: &str) -> bool
    ensures { (width : ℕ) → result ≡ is_data_pin (pin name.now width) }
{
    let name = name.as_bytes();
    !(name == "write_en".as_bytes() || name == "go".as_bytes() || name == "done".as_bytes())
}

/// The data ports among so many pins of a primitive from this one on, each in this interval.
fn data_ports(
    alloc: Global,
    prim: Prim,
    first: usize,
    count: usize,
    from: Off,
    to: Off,
) -> Result<Vec<SigPort>, Memory>
    requires made { IsMade prim }
    requires within { first + count ≤ length (pins_of prim) }
    ensures { IfOk result (λ ports. map seen_port ports.items
        ≡ map (port_in (seen_offset from) (seen_offset to)) (filter is_data_pin (take count (drop first (pins_of prim))))) }
{
    let mut ports = Vec::new(alloc);
    for i in 0..count {
        if let Some(pin) = prim.port(first + i) {
            if is_data(pin.name) {
                let name = Word::make(alloc, pin.name.as_bytes())?;
                ports.push(SigPort {
                    name,
                    from,
                    to,
                    width: pin.width,
                })?;
            }
        }
    }
    Ok(ports)
}

/// The signature of a primitive of this Filament name.
pub fn primitive_signature(alloc: Global, name: &[u8], prim: Prim) -> Result<TimeSig, Memory>
    requires { IsMade prim }
    ensures { IfOk result (λ sig. seen sig ≡ signature_by (timing_of name.now) prim) }
{
    let kind = Kind::of(name);
    let events = kind.events(alloc)?;
    let inputs = prim.inputs();
    let ins = data_ports(alloc, prim, 0, inputs, START, NEXT)?;
    let outs = data_ports(alloc, prim, inputs, prim.outputs(), kind.from(), kind.to())?;
    Ok(TimeSig { events, ins, outs })
}
