//! The netlist's own ports: the lines `in`, `out` and `wire`.
ghost use Rattle.std.specs.Prelude.{◌≡◌, ◌+◌, ◌^◌, ◌<◌, [], ◌∷◌, ◌++◌, List, length, flat_map, All, Some, None, OnOk, if◌then◌else◌};
ghost use Rattle.hw_names.specs.Name.{Text};
ghost use Rattle.hw_prims.specs.Table.{is_width};
ghost use Rattle.net_core.specs.Judging.{own_line, own_lines, first_broken, Tells};
ghost use Rattle.net_core.specs.Netlist.{pin_of};
ghost use Rattle.net_core.specs.Numbers.{IsNumberOf, PortHasNumbers};
ghost use Rattle.net_core.specs.Rules.{PortLine, ports_at};

use crate::net::NetPort;
use crate::ports::{Ports, Side};
use crate::rules::NetEnd;
use hw_bits::MAX_WIDTH;
use hw_names::Names;

/// The number as a width; `None` where it isn't 1 to `MAX_WIDTH`.
pub fn width_of(width: u128) -> Option<u8>
    ensures { result ≡ (if is_width width then Some width else None) }
{
    if width >= 1 && width <= MAX_WIDTH as u128 {
        Some(width as u8)
    } else {
        None
    }
}

/// Judges a port's line by N1 and N3, and puts the port last where they hold.
fn take_pin(
    ports: &mut Ports,
    names: &Names,
    pin: NetPort,
    side: Side,
    item: u64,
) -> Result<(), NetEnd>
    requires { IsNumberOf names.now pin.name }
    ensures judged { (all : List PortLine) (cells : List Text)
        → Tells result (first_broken all ports.old cells item (own_line side (pin_of names.now pin) ∷ [])) }
    ensures added { OnOk result (ports.new ≡ ports.old ++ ports_at (own_line side (pin_of names.now pin))) }
{
    let width = width_of(pin.width);
    let port = side.port(width.unwrap_or(0));
    if !ports.add(names.text(pin.name), port)? {
        return Err(NetEnd::Refused { rule: 1, item });
    }
    if width.is_none() {
        return Err(NetEnd::Refused { rule: 3, item });
    }
    Ok(())
}

/// Judges the lines of ports on one side by N1 and N3, and puts the ports last where they hold. The
/// first of these lines has the item `first`.
pub fn take_pins(
    ports: &mut Ports,
    names: &Names,
    pins: &[NetPort],
    side: Side,
    first: u64,
) -> Result<(), NetEnd>
    requires numbered { All (PortHasNumbers names.now) pins.now }
    requires counted { first + length pins.now < 2 ^ 64 }
    ensures judged { (all : List PortLine) (cells : List Text)
        → Tells result (first_broken all ports.old cells first (own_lines side names.now pins.now)) }
    ensures added { OnOk result (ports.new ≡ ports.old ++ flat_map ports_at (own_lines side names.now pins.now)) }
{
    let mut item = first;
    for pin in pins {
        take_pin(ports, names, *pin, side, item)?;
        item += 1;
    }
    Ok(())
}
