//! The ports of a component, written and implied.
ghost use Rattle.std.specs.Prelude.{◌≡◌, List, [], ◌∷◌, ◌++◌, map, All, IfOk, OnOk, option_map, if◌then◌else◌};
ghost use Rattle.hw_prims.specs.Table.{pin};
ghost use Rattle.cal_ast.specs.Numbers.{ComponentHasNumbers, PinHasNumber, SetHasNumbers};
ghost use Rattle.cal_ast.specs.Ports.{SidedPin, drives_done, has_pin, is_bare, is_own, on_side, port_named, with_pin};
ghost use Rattle.cal_ast.specs.Tree.{assignment_tree, component_tree, pin_tree, port_tree};
ghost use Rattle.cal_ast.specs.Numbers.{PortHasNumbers};
ghost use Rattle.cal_place.specs.Signatures.{ShowsPorts, ShowsSignature, found, sided, side_of};

use crate::first_places::FirstPlaces;
use cal_ast::{Assign, CalComp, CalPin, CalPort, ControlPart};
use hw_bits::Memory;
use hw_names::Names;
use std::alloc::Global;

/// A side of a signature.
#[derive(Clone, Copy, Debug, PartialEq, Eq)]
pub enum Side {
    Input,
    Output,
}

/// A port that a line names: its side, and its width in bits.
#[derive(Clone, Copy, Debug, PartialEq, Eq)]
pub struct Pin {
    pub side: Side,
    pub width: u128,
}

/// The ports of a component: its inputs, and then its outputs, implied ones last on their side.
#[derive(Drop)]
pub struct Signature {
    /// No control starts the component, and it has just its written ports.
    pub bare: bool,
    /// The names of the ports.
    pub names: FirstPlaces,
    /// The ports, by their places.
    pub pins: Vec<Pin>,
    /// How many of them are inputs.
    pub inputs: usize,
}

/// Whether the port is the component's own, of this name.
pub fn is_own(names: &Names, port: CalPort, name: &[u8]) -> bool
    requires { PortHasNumbers names.now port }
    ensures { result ≡ is_own name.now (port_tree names.now port) }
{
    port.cell.is_none() && names.text(port.port) == name
}

/// Whether one of the assignments drives the component's own port `done`.
fn drives_done(names: &Names, sets: &[Assign]) -> bool
    requires { All (SetHasNumbers names.now) sets.now }
    ensures { result ≡ drives_done (map (assignment_tree names.now) sets.now) }
{
    for set in sets {
        if is_own(names, set.dst, b"done") {
            return true;
        }
    }
    false
}

/// Whether no control starts the component.
fn is_bare(names: &Names, comp: &CalComp) -> bool
    requires { ComponentHasNumbers names.now comp.now }
    ensures { result ≡ is_bare (component_tree names.now comp.now) }
{
    match &comp.control {
        ControlPart::Absent => true,
        ControlPart::Empty => drives_done(names, &comp.sets),
        ControlPart::Body(_) => false,
    }
}

/// Whether one of the ports has the name.
fn has_pin(names: &Names, pins: &[CalPin], name: &[u8]) -> bool
    requires { All (PinHasNumber names.now) pins.now }
    ensures { result ≡ has_pin (map (pin_tree names.now) pins.now) name.now }
{
    for pin in pins {
        if names.text(pin.name) == name {
            return true;
        }
    }
    false
}

impl Signature {
    /// Puts a port last.
    fn add(&mut self, name: &[u8], pin: Pin) -> Result<(), Memory>
        ensures ports { (ports : List SidedPin) → ShowsPorts self.old ports → OnOk result (ShowsPorts self.new (ports ++ sided name.now pin ∷ [])) }
        ensures bare { self.new.bare ≡ self.old.bare }
        ensures inputs { self.new.inputs ≡ self.old.inputs }
    {
        self.names.add(name, self.pins.len())?;
        self.pins.push(pin)?;
        Ok(())
    }

    /// Puts the written ports of a side last.
    fn add_written(&mut self, names: &Names, pins: &[CalPin], side: Side) -> Result<(), Memory>
        requires { All (PinHasNumber names.now) pins.now }
        ensures ports { (ports : List SidedPin) → ShowsPorts self.old ports
            → OnOk result (ShowsPorts self.new (ports ++ on_side (side_of side) (map (pin_tree names.now) pins.now))) }
        ensures bare { self.new.bare ≡ self.old.bare }
        ensures inputs { self.new.inputs ≡ self.old.inputs }
    {
        for pin in pins {
            let width = pin.width;
            self.add(names.text(pin.name), Pin { side, width })?;
        }
        Ok(())
    }

    /// Puts the ports of a side last: those that are written, and in a component that isn't bare one of this name that
    /// is implied where none is written.
    fn add_side(
        &mut self,
        names: &Names,
        pins: &[CalPin],
        side: Side,
        implied: &[u8],
    ) -> Result<(), Memory>
        requires { All (PinHasNumber names.now) pins.now }
        ensures ports { (ports : List SidedPin) → ShowsPorts self.old ports
            → OnOk result (ShowsPorts self.new (ports ++ on_side (side_of side)
            (if self.old.bare then map (pin_tree names.now) pins.now else with_pin implied.now (map (pin_tree names.now) pins.now)))) }
        ensures bare { self.new.bare ≡ self.old.bare }
        ensures inputs { self.new.inputs ≡ self.old.inputs }
    {
        self.add_written(names, pins, side)?;
        if self.bare || has_pin(names, pins, implied) {
            return Ok(());
        }
        self.add(implied, Pin { side, width: 1 })
    }

    /// The ports of a component.
    pub fn of(alloc: Global, names: &Names, comp: &CalComp) -> Result<Signature, Memory>
        requires { ComponentHasNumbers names.now comp.now }
        ensures { IfOk result (λ signature. ShowsSignature signature (component_tree names.now comp.now)) }
    {
        let mut signature = Signature {
            bare: is_bare(names, comp),
            names: FirstPlaces::new(alloc, names),
            pins: Vec::new(alloc),
            inputs: 0,
        };
        signature.add_side(names, &comp.ins, Side::Input, b"go")?;
        signature.inputs = signature.pins.len();
        signature.add_side(names, &comp.outs, Side::Output, b"done")?;
        Ok(signature)
    }

    /// The first port of a name.
    pub fn find(&self, name: &[u8]) -> Option<Pin>
        ensures { (ports : List SidedPin) → ShowsPorts self.now ports → result ≡ option_map found (port_named ports name.now) }
    {
        let place = self.names.find(name)?;
        self.pins.get(place).copied()
    }
}
