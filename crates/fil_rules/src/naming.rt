//! The rules F1 and F2: names that are new, and names that exist.
ghost use Rattle.std.specs.Prelude.{◌≡◌, ◌↔◌, [], true, false, All, Contains, IsTrue};
ghost use Rattle.hw_names.specs.Name.{text_of};
ghost use Rattle.fil_ast.specs.Naming.{IsMadeOf, GivesKnown, IsKnownValue, MakesNewNames, UsesKnownNames};
ghost use Rattle.fil_ast.specs.Numbers.{IsNumberOf, GivingHasNumbers, TimeHasNumber, ValueHasNumbers, StatementHasNumbers};
ghost use Rattle.fil_ast.specs.Primitives.{is_any_primitive};
ghost use Rattle.fil_ast.specs.Scope.{Scope};
ghost use Rattle.fil_ast.specs.Tree.{giving, value_tree, statement_tree};
ghost use Rattle.fil_ast.specs.Typing.{value_width};
ghost use Rattle.fil_ast.specs.declared.tree.FilComp.{FilComp};
ghost use Rattle.fil_ast.specs.declared.tree.Time.{Time};
ghost use Rattle.fil_place.specs.Place.{IsPlaceIn};
ghost use Rattle.fil_place.specs.Tables.{ShowsEarlier, IsPlace};
ghost use Rattle.fil_place.specs.declared.earlier.Earlier.{Earlier};

use fil_ast::{FilComp, Stmt, Time, Value};
use fil_place::{Earlier, Place, Tables, output, value_width};
use fil_sig::table_name;
use hw_names::{NameId, Names};
use hw_prims::{Prim, PrimEnd};

/// Whether a primitive of either table has the name.
pub fn is_any_primitive(name: &[u8]) -> bool
    ensures { result ≡ is_any_primitive name.now }
{
    if table_name(name).is_some() {
        return true;
    }
    match Prim::make(name, &[]) {
        Err(PrimEnd::UnknownPrim) => false,
        _ => true,
    }
}

/// Whether each of these names is among those.
pub fn are_among(names: &Names, ids: &[NameId], those: &Names) -> bool
    requires { All (IsNumberOf names.now) ids.now }
    ensures { IsTrue result ↔ All (λ id. Contains those.now (text_of names.now id)) ids.now }
{
    for id in ids {
        if those.find(names.text(*id)).is_none() {
            return false;
        }
    }
    true
}

/// Whether a Filament primitive or an earlier component has the name.
pub fn is_made_of(earlier: &Earlier, name: &[u8]) -> bool
    ensures { (scope : Scope) → ShowsEarlier earlier.now scope.comps → IsTrue result ↔ IsMadeOf scope name.now }
{
    table_name(name).is_some() || earlier.names.find(name).is_some()
}

/// Whether each time names an event.
fn name_events(names: &Names, events: &Names, at: &[Time]) -> bool
    requires { All (TimeHasNumber names.now) at.now }
    ensures { IsTrue result ↔ All (λ time. Contains events.now (text_of names.now time.event)) at.now }
{
    for time in at {
        if events.find(names.text(time.event)).is_none() {
            return false;
        }
    }
    true
}

/// Whether each argument is known.
fn are_known(place: &Place, args: &[Value]) -> bool
    requires { All (ValueHasNumbers place.now.names.now) args.now }
    ensures { (scope : Scope) → IsPlaceIn place.now scope
        → IsTrue result ↔ All (λ arg. IsKnownValue scope (value_tree place.now.names.now arg)) args.now }
{
    for arg in args {
        if value_width(place, *arg).is_none() {
            return false;
        }
    }
    true
}

/// F2 of what an invocation gives.
pub fn gives_known(place: &Place, at: &[Time], args: &[Value]) -> bool
    requires { GivingHasNumbers place.now.names.now at.now args.now }
    ensures { (scope : Scope) → IsPlaceIn place.now scope
        → IsTrue result ↔ GivesKnown scope (giving place.now.names.now at.now args.now) }
{
    name_events(place.names, &place.tables.events, at) && are_known(place, args)
}

/// F1: the instance is new among instances, the invocation among ports and invocations.
pub fn makes_new_names(names: &Names, tables: &Tables, stmt: &Stmt) -> bool
    requires { StatementHasNumbers names.now stmt.now }
    ensures { (earlier : Earlier) (comp : FilComp) (scope : Scope) → IsPlace names.now earlier comp tables.now scope
        → IsTrue result ↔ MakesNewNames scope (statement_tree names.now stmt.now) }
{
    match stmt {
        Stmt::New { name, .. } => tables.instances.find(names.text(*name)).is_none(),
        Stmt::Call { name, .. } => tables.ports.find(names.text(*name)).is_none(),
        Stmt::Both { name, .. } => {
            let name = names.text(*name);
            tables.instances.find(name).is_none() && tables.ports.find(name).is_none()
        }
        Stmt::Set { .. } => true,
    }
}

/// F2: what is made, the invoked instance, the times' events, the arguments, the connected output and value exist.
pub fn uses_known_names(place: &Place, stmt: &Stmt) -> bool
    requires { StatementHasNumbers place.now.names.now stmt.now }
    ensures { (scope : Scope) → IsPlaceIn place.now scope
        → IsTrue result ↔ UsesKnownNames scope (statement_tree place.now.names.now stmt.now) }
{
    match stmt {
        Stmt::New { comp: made, .. } => is_made_of(place.earlier, place.names.text(*made)),
        Stmt::Call { inst, at, args, .. } => {
            place
                .tables
                .instances
                .find(place.names.text(*inst))
                .is_some()
                && gives_known(place, at, args)
        }
        Stmt::Both {
            comp: made,
            at,
            args,
            ..
        } => { is_made_of(place.earlier, place.names.text(*made)) && gives_known(place, at, args) }
        Stmt::Set { dst, value } => {
            output(place.comp, place.tables, place.names.text(*dst)).is_some()
                && value_width(place, *value).is_some()
        }
    }
}
