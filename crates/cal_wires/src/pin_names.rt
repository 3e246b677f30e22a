//! Names of ports: those of a design by their numbers, and texts.
ghost use Rattle.std.specs.Prelude.{◌≡◌, Some, Contains, slice_get, IfNone, IfOk, IfSome};
ghost use Rattle.hw_names.specs.Name.{KeepsTexts};
ghost use Rattle.cal_wires.specs.Nodes.{PinHasNumber, pin_text};

use hw_bits::Memory;
use hw_names::NameId;
use hw_texts::Texts;

/// The name of a port: one of the design's by its number, or a text.
#[derive(Clone, Copy)]
pub enum PinName<'t> {
    Number(NameId),
    Text(&'t [u8]),
}

/// The number of a name among texts; one that has none goes last.
pub fn number_of(texts: &mut Texts, pin: PinName) -> Result<usize, Memory>
    requires { PinHasNumber texts.old.names pin }
    ensures number { IfOk result (λ n. slice_get texts.new.all n ≡ Some (pin_text texts.old.names pin.entry)) }
    ensures names { texts.new.names ≡ texts.old.names }
    ensures kept { KeepsTexts texts.old.all texts.new.all }
{
    match pin {
        PinName::Number(id) => {
            texts.begin_with_names();
            Ok(id.0 as usize)
        }
        PinName::Text(text) => texts.number(text),
    }
}

/// The number of a name among texts, if it has one.
pub fn find_pin(texts: &Texts, pin: PinName) -> Option<usize>
    requires { PinHasNumber texts.now.names pin }
    ensures some { IfSome result (λ n. slice_get texts.now.all n ≡ Some (pin_text texts.now.names pin.entry)) }
    ensures none { IfNone result (¬ Contains texts.now.all (pin_text texts.now.names pin.entry)) }
{
    match pin {
        PinName::Number(id) => {
            texts.begin_with_names();
            Some(id.0 as usize)
        }
        PinName::Text(text) => texts.find(text),
    }
}
