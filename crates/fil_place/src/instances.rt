//! What the instance that a statement makes is made of.
ghost use Rattle.std.specs.Prelude.{◌≡◌, ◌<◌, [], true, Ok, IfOk, option_and_then, Some};
ghost use Rattle.fil_ast.specs.Numbers.{StatementHasNumbers};
ghost use Rattle.fil_ast.specs.Primitives.{is_filament_primitive, primitive_signature};
ghost use Rattle.fil_ast.specs.Scope.{signature_in};
ghost use Rattle.fil_ast.specs.Tree.{Design, statement_tree};
ghost use Rattle.fil_place.specs.Tables.{ShowsEarlier, made_signature, IsMadeAt};
ghost use Rattle.fil_place.specs.declared.earlier.Earlier.{Earlier};

use crate::callee::Callee;
use crate::earlier::Earlier;
use crate::tables::Made;
use fil_ast::Stmt;
use fil_sig::{SigEnd, table_name, used_signature};
use hw_bits::Memory;
use hw_names::Names;
use std::alloc::Global;

/// The Filament primitive of this name with these parameters; `None` where their number or range is wrong.
fn primitive_made(
    alloc: Global,
    names: &Names,
    name: &[u8],
    params: &[u128],
) -> Result<Option<Made>, Memory>
    requires { is_filament_primitive name.now ≡ true }
    ensures { (earlier : Earlier) → IfOk result (λ made. option_and_then (made_signature earlier) made ≡ primitive_signature name.now params.now) }
{
    match used_signature(alloc, names, name, None, params) {
        Ok(sig) => Ok(Some(Made::Primitive(Callee::make(names, sig)?))),
        Err(SigEnd::Refused { .. }) => Ok(None),
        Err(SigEnd::Memory) => Err(Memory),
    }
}

/// What a name with parameters means; `None` where nothing has the name, or the parameters are wrong.
pub fn made_of(
    alloc: Global,
    names: &Names,
    earlier: &Earlier,
    name: &[u8],
    params: &[u128],
) -> Result<Option<Made>, Memory>
    ensures { (comps : Design) → ShowsEarlier earlier.now comps
        → IfOk result (λ made. option_and_then (made_signature earlier.now) made ≡ signature_in comps name.now params.now) }
{
    if table_name(name).is_some() {
        return primitive_made(alloc, names, name, params);
    }
    if !params.is_empty() {
        return Ok(None);
    }
    match earlier.names.find(name) {
        Some(number) => Ok(Some(Made::Component(number.0 as usize))),
        None => Ok(None),
    }
}

/// What the statement's instance is made of; `None` where it makes none, or its parameters are wrong.
pub fn made_at(
    alloc: Global,
    names: &Names,
    earlier: &Earlier,
    stmt: &Stmt,
) -> Result<Option<Made>, Memory>
    requires { StatementHasNumbers names.now stmt.now }
    ensures { (comps : Design) → ShowsEarlier earlier.now comps
        → IfOk result (λ made. IsMadeAt earlier.now comps made (statement_tree names.now stmt.now)) }
{
    match stmt {
        Stmt::New {
            comp: made,
            params,
            ..
        } => made_of(alloc, names, earlier, names.text(*made), params),
        Stmt::Both {
            comp: made,
            params,
            ..
        } => made_of(alloc, names, earlier, names.text(*made), params),
        _ => Ok(None),
    }
}
