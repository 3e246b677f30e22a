//! The names that a component's signature declares and uses.
ghost use Rattle.std.specs.Prelude.{◌≡◌, ◌++◌, ◌<◌, [], true, false, Ok, map, All, IfOk};
ghost use Rattle.hw_names.specs.Name.{AreDistinct, text_of};
ghost use Rattle.fil_ast.specs.Naming.{event_names, port_names};
ghost use Rattle.fil_ast.specs.Numbers.{IsNumberOf, ComponentHasNumbers};
ghost use Rattle.fil_ast.specs.Tree.{component_tree};
ghost use Rattle.fil_ast.specs.declared.tree.FilComp.{FilComp};
ghost use Rattle.fil_place.specs.SignatureNames.{event_ids, go_event_ids, port_ids, time_ids, used_event_ids};

use fil_ast::{FilComp, FilPort, GoPort};
use fil_sig::add_name;
use hw_bits::Memory;
use hw_names::{NameId, Names};
use std::alloc::Global;

/// The names of a component's events.
pub fn event_ids(alloc: Global, comp: &FilComp) -> Result<Vec<NameId>, Memory>
    ensures { IfOk result (λ ids. ids.items ≡ event_ids comp.now) }
{
    let ids: Vec<NameId> = comp.events.iter().map(|event| event.name).collect(alloc)?;
    Ok(ids)
}

/// The names of a component's ports: interface ports, inputs, outputs.
pub fn port_ids(alloc: Global, comp: &FilComp) -> Result<Vec<NameId>, Memory>
    ensures { IfOk result (λ ids. ids.items ≡ port_ids comp.now) }
{
    let gos = comp.gos.iter().map(|go| go.name);
    let ins = comp.ins.iter().map(|port| port.name);
    let outs = comp.outs.iter().map(|port| port.name);
    let ids: Vec<NameId> = gos.chain(ins).chain(outs).collect(alloc)?;
    Ok(ids)
}

/// The events that the times of ports name: first each port's start, then each port's end.
fn time_ids(alloc: Global, ports: &[FilPort]) -> Result<Vec<NameId>, Memory>
    ensures { IfOk result (λ ids. ids.items ≡ time_ids ports.now) }
{
    let starts = ports.iter().map(|port| port.from.event);
    let ends = ports.iter().map(|port| port.to.event);
    let ids: Vec<NameId> = starts.chain(ends).collect(alloc)?;
    Ok(ids)
}

/// The events of interface ports.
fn go_event_ids(alloc: Global, gos: &[GoPort]) -> Result<Vec<NameId>, Memory>
    ensures { IfOk result (λ ids. ids.items ≡ go_event_ids gos.now) }
{
    let ids: Vec<NameId> = gos.iter().map(|go| go.event).collect(alloc)?;
    Ok(ids)
}

/// The events that the interface ports and the times of a signature name.
pub fn used_event_ids(alloc: Global, comp: &FilComp) -> Result<Vec<NameId>, Memory>
    ensures { IfOk result (λ ids. ids.items ≡ used_event_ids comp.now) }
{
    let mut ids = go_event_ids(alloc, &comp.gos)?;
    let ins = time_ids(alloc, &comp.ins)?;
    ids.extend_from_slice(&ins)?;
    let outs = time_ids(alloc, &comp.outs)?;
    ids.extend_from_slice(&outs)?;
    Ok(ids)
}

/// Puts these names last, up to the first that is there already; says whether all were new.
pub fn take_names(names: &Names, ids: &[NameId], taken: &mut Names) -> Result<bool, Memory>
    requires numbered { All (IsNumberOf names.now) ids.now }
    requires distinct { AreDistinct taken.old }
    ensures new { result ≡ Ok true → (taken.new ≡ taken.old ++ map (text_of names.now) ids.now) × AreDistinct taken.new }
    ensures there { result ≡ Ok false → ¬ AreDistinct (taken.old ++ map (text_of names.now) ids.now) }
{
    for id in ids {
        if !add_name(taken, names.text(*id))? {
            return Ok(false);
        }
    }
    Ok(true)
}

/// Puts the names of a component's events and of its ports into the two lists, each up to the first that is there already;
/// says whether all were new.
pub fn take_signature_names(
    alloc: Global,
    names: &Names,
    comp: &FilComp,
    events: &mut Names,
    ports: &mut Names,
) -> Result<bool, Memory>
    requires numbered { ComponentHasNumbers names.now comp.now }
    requires no_events { events.old ≡ [] }
    requires no_ports { ports.old ≡ [] }
    ensures new { result ≡ Ok true → AreDistinct (event_names (component_tree names.now comp.now)) × AreDistinct (port_names (component_tree names.now comp.now)) }
    ensures there { result ≡ Ok false → ¬ (AreDistinct (event_names (component_tree names.now comp.now)) × AreDistinct (port_names (component_tree names.now comp.now))) }
    ensures events { result ≡ Ok true → events.new ≡ event_names (component_tree names.now comp.now) }
    ensures ports { result ≡ Ok true → ports.new ≡ port_names (component_tree names.now comp.now) }
{
    let event_names = event_ids(alloc, comp)?;
    if !take_names(names, &event_names, events)? {
        return Ok(false);
    }
    let port_names = port_ids(alloc, comp)?;
    take_names(names, &port_names, ports)
}
