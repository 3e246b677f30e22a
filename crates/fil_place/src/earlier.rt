//! The components before one, by name and by number.
ghost use Rattle.std.specs.Prelude.{[], ◌∷◌, ◌++◌, OnOk};
ghost use Rattle.fil_ast.specs.Limits.{KeepsLimits};
ghost use Rattle.fil_ast.specs.Numbers.{ComponentHasNumbers};
ghost use Rattle.fil_ast.specs.Rules.{KeepsComponent, all_rules};
ghost use Rattle.fil_ast.specs.Tree.{Design, component_tree};
ghost use Rattle.fil_place.specs.Tables.{ShowsEarlier};

use crate::callee::Callee;
use fil_ast::FilComp;
use fil_sig::{add_name, component_signature};
use hw_bits::Memory;
use hw_names::Names;
use std::alloc::Global;

/// The components before one, by name and by number.
#[derive(Drop)]
pub struct Earlier {
    /// The names of the components, in text order.
    pub names: Names,
    /// Their signatures.
    pub callees: Vec<Callee>,
}

/// Puts a component that keeps the rules last.
pub fn add_component(
    alloc: Global,
    names: &Names,
    earlier: &mut Earlier,
    comp: &FilComp,
) -> Result<(), Memory>
    requires numbers { ComponentHasNumbers names.now comp.now }
    requires small { KeepsLimits comp.now }
    requires kept { (comps : Design) × ShowsEarlier earlier.old comps × KeepsComponent all_rules comps (component_tree names.now comp.now) }
    ensures { (comps : Design) → ShowsEarlier earlier.old comps
        → OnOk result (ShowsEarlier earlier.new (comps ++ component_tree names.now comp.now ∷ [])) }
{
    let sig = component_signature(alloc, names, comp)?;
    let callee = Callee::make(names, sig)?;
    let _new = add_name(&mut earlier.names, names.text(comp.name))?;
    earlier.callees.push(callee)?;
    Ok(())
}
