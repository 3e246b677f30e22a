//! The rule F9: each output is connected once, by a value that is available throughout its interval.
ghost use Rattle.std.specs.Prelude.{◌≡◌, ◌↔◌, List, IsTrue, flat_map};
ghost use Rattle.hw_names.specs.Name.{AreDistinct, text_of};
ghost use Rattle.fil_ast.specs.Connections.{ConnectsAll, ConnectsOnce, connected_at};
ghost use Rattle.fil_ast.specs.Numbers.{ComponentHasNumbers, IsNumberOf, ValueHasNumbers};
ghost use Rattle.fil_ast.specs.Scope.{Scope};
ghost use Rattle.fil_ast.specs.Tree.{Connect, Statement, component_tree, value_tree};
ghost use Rattle.fil_place.specs.Place.{IsPlaceIn};

use crate::timeline::available::{missing_in, output_interval};
use fil_ast::{FilComp, Value};
use fil_place::Place;
use hw_names::{NameId, Names};

/// F9 of a connection: it is its output's first, and its value is available throughout the output's interval.
pub fn connects_once(place: &Place, dst: NameId, value: Value) -> bool
    requires numbers { ComponentHasNumbers place.now.names.now place.now.comp.now }
    requires dst { IsNumberOf place.now.names.now dst }
    requires value { ValueHasNumbers place.now.names.now value }
    ensures { (scope : Scope) (before : List Statement) → IsPlaceIn place.now scope
        → AreDistinct place.now.tables.now.events → place.now.tables.now.connected ≡ flat_map connected_at before
        → IsTrue result ↔ ConnectsOnce scope before (Connect (text_of place.now.names.now dst) (value_tree place.now.names.now value)) }
{
    let name = place.names.text(dst);
    if place.tables.connected.find(name).is_some() {
        return false;
    }
    let need = output_interval(place, name);
    missing_in(place, need, value).is_none()
}

/// F9 at the end of the body: each output is among those that are connected.
pub fn connects_all(names: &Names, comp: &FilComp, connected: &Names) -> bool
    requires numbers { ComponentHasNumbers names.now comp.now }
    ensures { connected.now ≡ flat_map connected_at (component_tree names.now comp.now).body
        → IsTrue result ↔ ConnectsAll (component_tree names.now comp.now) }
{
    for port in &comp.outs {
        if connected.find(names.text(port.name)).is_none() {
            return false;
        }
    }
    true
}
