//! What an instance is made of, among the components before its own.
ghost use Rattle.std.specs.Prelude.{◌≡◌, List, Some, map, option_map, All, Contains, IfOk, IfSome, OnOk};
ghost use Rattle.hw_names.specs.Name.{Text, AreDistinct};
ghost use Rattle.fil_ast.specs.Limits.{KeepsLimits};
ghost use Rattle.fil_ast.specs.Naming.{component_names};
ghost use Rattle.fil_ast.specs.Numbers.{ComponentHasNumbers};
ghost use Rattle.fil_ast.specs.Scope.{component_named, signature_in};
ghost use Rattle.fil_ast.specs.Tree.{component_tree};
ghost use Rattle.fil_sig.specs.Refusals.{IsUsable};
ghost use Rattle.fil_sig.specs.Seen.{seen};
ghost use Rattle.fil_share.specs.Instances.{AddsName};

use fil_ast::FilComp;
use fil_sig::{SigEnd, TimeSig, add_name, used_signature};
use hw_bits::Memory;
use hw_names::Names;
use std::alloc::Global;

/// Puts the name of a component last, if it is new.
pub fn add_component_name(names: &Names, known: &mut Names, comp: &FilComp) -> Result<(), Memory>
    requires { ComponentHasNumbers names.now comp.now }
    ensures { OnOk result (AddsName known.old known.new (component_tree names.now comp.now).name) }
{
    let _new = add_name(known, names.text(comp.name))?;
    Ok(())
}

/// The names of components, which differ.
pub(crate) fn component_names(
    alloc: Global,
    names: &Names,
    comps: &[FilComp],
) -> Result<Names, Memory>
    requires numbers { All (ComponentHasNumbers names.now) comps.now }
    requires distinct { AreDistinct (component_names (map (component_tree names.now) comps.now)) }
    ensures { IfOk result (λ known. known ≡ component_names (map (component_tree names.now) comps.now)) }
{
    let mut known = names.beside();
    for comp in comps {
        add_component_name(names, &mut known, comp)?;
    }
    Ok(known)
}

/// The component of a name, where `known` are the names of the components.
fn component_of<'a>(known: &Names, comps: &'a [FilComp], name: &[u8]) -> Option<&'a FilComp>
    ensures found { (names : List Text) → known.now ≡ component_names (map (component_tree names) comps.now)
        → option_map (λ comp. component_tree names comp.now) result ≡ component_named (map (component_tree names) comps.now) name.now }
    ensures among { IfSome result (λ comp. Contains comps.now comp.now) }
{
    let number = known.find(name)?;
    comps.get(number.0 as usize)
}

/// The signature of what a name with these parameters means.
pub(crate) fn callee(
    alloc: Global,
    names: &Names,
    known: &Names,
    comps: &[FilComp],
    name: &[u8],
    params: &[u128],
) -> Result<TimeSig, Memory>
    requires numbers { All (ComponentHasNumbers names.now) comps.now }
    requires small { All KeepsLimits comps.now }
    requires known { known.now ≡ component_names (map (component_tree names.now) comps.now) }
    requires usable { IsUsable (map (component_tree names.now) comps.now) name.now params.now }
    ensures { IfOk result (λ sig. signature_in (map (component_tree names.now) comps.now) name.now params.now ≡ Some (seen sig)) }
{
    let comp = component_of(known, comps, name);
    match used_signature(alloc, names, name, comp, params) {
        Ok(sig) => Ok(sig),
        Err(SigEnd::Refused { .. }) => unreachable!(),
        Err(SigEnd::Memory) => Err(Memory),
    }
}
