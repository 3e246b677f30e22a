//! The names of a lowered design: those of the Filament design, with the same numbers, and then further ones.
ghost use Rattle.std.specs.Prelude.{◌≡◌, All, Contains, IfOk, OnOk};
ghost use Rattle.hw_names.specs.Name.{KeepsTexts, text_of};
ghost use Rattle.fil_ast.specs.Numbers.{IsNumberOf};
ghost use Rattle.fil_ast.specs.Scope.{Scope};
ghost use Rattle.fil_sig.specs.Seen.{seen};
ghost use Rattle.fil_share.specs.Instances.{ShowsScope};
ghost use Rattle.fil_lower.specs.inside.Parts.{IsNamedEvent, IsNamedPort, NamesAllPorts};

use fil_fsm::intern;
use fil_share::Instances;
use fil_sig::TimeSig;
use hw_bits::Memory;
use hw_names::{NameId, Names};
use std::alloc::Global;

/// The same names once more, with the same numbers.
pub(crate) fn copy_names(alloc: Global, names: &Names) -> Result<Names, Memory>
    ensures { IfOk result (λ copy. copy ≡ names.now) }
{
    let mut copy = names.beside();
    for number in 0..names.len() {
        let _same = copy.intern(names.text(NameId(number as u32)))?;
    }
    Ok(copy)
}

/// The number of a text that is among the names.
pub(crate) fn number_of(names: &Names, text: &[u8]) -> NameId
    requires { Contains names.now text.now }
    ensures numbered { IsNumberOf names.now result }
    ensures text { text_of names.now result ≡ text.now }
{
    match names.find(text) {
        Some(id) => id,
        None => unreachable!(),
    }
}

/// Adds the names of the inputs of a signature where they are new.
fn add_inputs(names: &mut Names, sig: &TimeSig) -> Result<(), Memory>
    ensures kept { KeepsTexts names.old names.new }
    ensures named { OnOk result (All (IsNamedPort names.new) (seen sig.now).ins) }
{
    for port in &sig.ins {
        let _number = intern(names, port.name.bytes())?;
    }
    Ok(())
}

/// Adds the names of the interface ports of a signature where they are new.
fn add_interfaces(names: &mut Names, sig: &TimeSig) -> Result<(), Memory>
    ensures kept { KeepsTexts names.old names.new }
    ensures named { OnOk result (All (IsNamedEvent names.new) (seen sig.now).events) }
{
    for event in &sig.events {
        if let Some(go) = &event.go {
            let _number = intern(names, go.bytes())?;
        }
    }
    Ok(())
}

/// Adds the names of the ports at which instances are given something.
pub(crate) fn add_port_names(names: &mut Names, instances: &Instances) -> Result<(), Memory>
    ensures kept { KeepsTexts names.old names.new }
    ensures named { (scope : Scope) → ShowsScope instances.now scope → OnOk result (NamesAllPorts names.new scope) }
{
    for sig in instances.sigs() {
        add_inputs(names, sig)?;
        add_interfaces(names, sig)?;
    }
    Ok(())
}
