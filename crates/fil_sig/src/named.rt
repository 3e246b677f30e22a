//! The signature of what a name with parameters means.
ghost use Rattle.std.specs.Prelude.{◌≡◌, ◌⊎◌, [], Some, None, option_map, IfOk, IfErr, OnOk, IfSome};
ghost use Rattle.hw_names.specs.Name.{text_of};
ghost use Rattle.fil_ast.specs.Numbers.{IsNumberOf, ComponentHasNumbers, HasNumbers};
ghost use Rattle.fil_ast.specs.Scope.{component_named, signature_in};
ghost use Rattle.fil_ast.specs.Primitives.{primitive_signature, table_name};
ghost use Rattle.fil_ast.specs.Signature.{component_signature};
ghost use Rattle.fil_ast.specs.Tree.{Design, component_tree, design_of};
ghost use Rattle.fil_ast.specs.Typing.{HasWidths, HasShape};
ghost use Rattle.fil_ast.specs.Limits.{KeepsLimits, HasSmallOffsets};
ghost use Rattle.fil_sig.specs.Refusals.{IsUsable, TellsCause, TellsFault};
ghost use Rattle.fil_sig.specs.Seen.{seen};

use crate::component::{component_named, component_signature};
use crate::primitive::{primitive_signature, table_name};
use crate::shape::{has_shape, has_widths};
use crate::time_sig::TimeSig;
use fil_ast::{FilComp, FilDesign};
use hw_bits::Memory;
use hw_names::{NameId, Names};
use hw_prims::Prim;
use std::alloc::Global;

/// Why a name with parameters has no signature.
#[derive(Clone, Copy, Debug, PartialEq, Eq)]
pub enum SigEnd {
    /// The rule with this number is broken, the least of 2, 3 and 5 that is.
    Refused { rule: u8 },
    /// There was no memory.
    Memory,
}

impl From<Memory> for SigEnd {
    ghost use Rattle.fil_sig.specs.declared.named.SigEnd.{SigEnd};

    ghost from_gives = { λ memory end. end ≡ SigEnd.Memory };

    fn from(_memory: Memory) -> SigEnd {
        SigEnd::Memory
    }
}

/// The signature of a primitive, by the table's name of it.
fn of_primitive(alloc: Global, name: &[u8], table: &str, params: &[u128]) -> Result<TimeSig, SigEnd>
    requires { table_name name.now ≡ Some table.now }
    ensures made { IfOk result (λ sig. primitive_signature name.now params.now ≡ Some (seen sig)) }
    ensures refused { IfErr result (λ end. (end ≡ SigEnd.Memory) ⊎ ((end ≡ SigEnd.Refused 3) × (primitive_signature name.now params.now ≡ None))) }
{
    match Prim::make(table.as_bytes(), params) {
        Ok(prim) => Ok(primitive_signature(alloc, name, prim)?),
        Err(_) => Err(SigEnd::Refused { rule: 3 }),
    }
}

/// The signature of a component that is used with these parameters.
fn of_component(
    alloc: Global,
    names: &Names,
    comp: &FilComp,
    params: &[u128],
) -> Result<TimeSig, SigEnd>
    requires numbered { ComponentHasNumbers names.now comp.now }
    requires small { KeepsLimits comp.now }
    ensures made { IfOk result (λ sig. (params.now ≡ []) × (component_signature (component_tree names.now comp.now) ≡ seen sig)) }
    ensures usable { OnOk result (HasWidths (component_tree names.now comp.now) × HasShape (component_tree names.now comp.now)) }
    ensures refused { IfErr result (TellsFault (component_tree names.now comp.now) params.now) }
{
    if !params.is_empty() || !has_widths(comp) {
        return Err(SigEnd::Refused { rule: 3 });
    }
    if !has_shape(alloc, names, comp)? {
        return Err(SigEnd::Refused { rule: 5 });
    }
    Ok(component_signature(alloc, names, comp)?)
}

/// The signature of what a name with parameters means, where `comp` is the component that has the name,
/// if one has: a Filament primitive's name means the primitive.
pub fn used_signature(
    alloc: Global,
    names: &Names,
    name: &[u8],
    comp: Option<&FilComp>,
    params: &[u128],
) -> Result<TimeSig, SigEnd>
    requires numbered { IfSome comp (λ c. ComponentHasNumbers names.now c.now) }
    requires small { IfSome comp (λ c. KeepsLimits c.now) }
    ensures made { (comps : Design) → component_named comps name.now ≡ option_map (λ c. component_tree names.now c.now) comp.entry
        → IfOk result (λ sig. signature_in comps name.now params.now ≡ Some (seen sig)) }
    ensures usable { (comps : Design) → component_named comps name.now ≡ option_map (λ c. component_tree names.now c.now) comp.entry
        → OnOk result (IsUsable comps name.now params.now) }
    ensures refused { (comps : Design) → component_named comps name.now ≡ option_map (λ c. component_tree names.now c.now) comp.entry
        → IfErr result (TellsCause comps name.now params.now) }
{
    if let Some(table) = table_name(name) {
        return of_primitive(alloc, name, table, params);
    }
    match comp {
        Some(comp) => of_component(alloc, names, comp, params),
        None => Err(SigEnd::Refused { rule: 2 }),
    }
}

/// The signature of what a name with these parameters means in the design: a Filament primitive, or the
/// first component that has the name. It goes over the components once.
pub fn signature(
    alloc: Global,
    design: &FilDesign,
    name: NameId,
    params: &[u128],
) -> Result<TimeSig, SigEnd>
    requires numbers { HasNumbers design.now }
    requires named { IsNumberOf design.now.names name }
    requires small { HasSmallOffsets design.now }
    ensures made { IfOk result (λ sig. signature_in (design_of design.now) (text_of design.now.names name) params.now ≡ Some (seen sig)) }
    ensures usable { OnOk result (IsUsable (design_of design.now) (text_of design.now.names name) params.now) }
    ensures refused { IfErr result (TellsCause (design_of design.now) (text_of design.now.names name) params.now) }
{
    let text = design.names.text(name);
    let comp = component_named(design, text);
    used_signature(alloc, &design.names, text, comp, params)
}
