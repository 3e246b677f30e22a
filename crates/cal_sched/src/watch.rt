//! The done lines and conditions of a component, over the numbers of ports.
ghost use Rattle.std.specs.Prelude.{◌≡◌, map, All, Contains, IfOk, OnOk};
ghost use Rattle.net_core.specs.Numbers.{IsNumberOf};
ghost use Rattle.cal_ast.specs.Numbers.{DoneHasNumbers, PortHasNumbers};
ghost use Rattle.cal_ast.specs.Tree.{Component, Design};
ghost use Rattle.cal_sched.specs.Walking.{CanWalk};
ghost use Rattle.cal_sched.specs.Watching.{AreWatchesOf, AreWatchesOfGroups, AreWithin, HasPorts, PutsDones, PutsInvoke, WatchIsWithin, done_reads, invoke_port, named, reads_one, top_port};

use crate::guards::{is_when, source_over, value_of, when_over};
use crate::ports::{cell_port, number_at, number_of};
use cal_ast::{CalPort, DoneSet};
use cal_walk::{Controlled, Invoke};
use hw_bits::Memory;
use hw_names::Names;
use net_core::{Guard, Src};
use net_row::Sim;
use std::alloc::Global;

/// A done line of an actor.
#[derive(Drop)]
pub(crate) struct Watch {
    pub(crate) actor: usize,
    pub(crate) guard: Option<Guard<usize>>,
    pub(crate) src: Src<usize>,
}

/// Whether a done line reads 1 in the row that was evaluated.
pub(crate) fn reads_one(sim: &Sim, watch: &Watch) -> bool
    requires { WatchIsWithin sim.now.values watch.now }
    ensures { result ≡ reads_one sim.now.values watch.now }
{
    is_when(sim, &watch.guard) && value_of(sim, watch.src) == 1
}

/// Puts the done lines of a group last.
fn push_dones(
    alloc: Global,
    watches: &mut Vec<Watch>,
    names: &Names,
    ports: &Names,
    actor: usize,
    dones: &[DoneSet],
) -> Result<(), Memory>
    requires numbers { All (DoneHasNumbers names.now) dones.now }
    requires there { All (λ d. HasPorts ports.now (done_reads names.now d)) dones.now }
    ensures { OnOk result (PutsDones names.now ports.now actor dones.now watches.old.items watches.new.items) }
{
    for done in dones {
        let guard = when_over(alloc, names, ports, &done.guard)?;
        let src = source_over(alloc, names, ports, done.src)?;
        watches.push(Watch { actor, guard, src })?;
    }
    Ok(())
}

/// Puts the done of an invoked cell last.
fn push_invoke(
    alloc: Global,
    watches: &mut Vec<Watch>,
    names: &Names,
    ports: &Names,
    actor: usize,
    invoke: &Invoke,
) -> Result<(), Memory>
    requires number { IsNumberOf names.now invoke.now.cell }
    requires there { Contains ports.now (invoke_port names.now invoke.now) }
    ensures { OnOk result (PutsInvoke names.now ports.now actor invoke.now watches.old.items watches.new.items) }
{
    let name = cell_port(alloc, names.text(invoke.cell), b"done")?;
    let src = Src::Port(number_of(ports, &name)?);
    watches.push(Watch {
        actor,
        guard: None,
        src,
    })?;
    Ok(())
}

/// Puts the dones of the component's invokes last, whose numbers as actors follow those of its groups.
fn push_invokes(
    alloc: Global,
    watches: &mut Vec<Watch>,
    names: &Names,
    ports: &Names,
    control: &Controlled,
) -> Result<(), Memory>
    requires { (design : Design) × (c : Component) × CanWalk design c names.now ports.now control.now }
    ensures { (design : Design) (c : Component) → CanWalk design c names.now ports.now control.now
        → AreWatchesOfGroups c.groups ports.now watches.old.items
        → OnOk result (AreWatchesOf design c ports.now watches.new.items) }
{
    let groups = control.comp.groups.len();
    for (place, invoke) in control.invokes.iter().enumerate() {
        push_invoke(alloc, watches, names, ports, groups + place, invoke)?;
    }
    Ok(())
}

/// The done lines of the component's groups, and then those of its invokes.
pub(crate) fn watches_of(
    alloc: Global,
    names: &Names,
    ports: &Names,
    control: &Controlled,
) -> Result<Vec<Watch>, Memory>
    requires { (design : Design) × (c : Component) × CanWalk design c names.now ports.now control.now }
    ensures { (design : Design) (c : Component) → CanWalk design c names.now ports.now control.now
        → IfOk result (λ watches. AreWatchesOf design c ports.now watches.items) }
{
    let mut watches = Vec::new(alloc);
    for (actor, group) in control.comp.groups.iter().enumerate() {
        push_dones(alloc, &mut watches, names, ports, actor, &group.dones)?;
    }
    push_invokes(alloc, &mut watches, names, ports, control)?;
    Ok(watches)
}

/// The numbers of the ports of conditions.
pub(crate) fn numbers_of(
    alloc: Global,
    names: &Names,
    ports: &Names,
    conditions: &[CalPort],
) -> Result<Vec<usize>, Memory>
    requires numbers { All (PortHasNumbers names.now) conditions.now }
    requires there { All (λ p. Contains ports.now (top_port names.now p)) conditions.now }
    ensures numbers { IfOk result (λ numbers. map (named ports.now) numbers.items ≡ map (top_port names.now) conditions.now) }
    ensures within { IfOk result (λ numbers. AreWithin ports.now numbers.items) }
{
    let mut numbers = Vec::new(alloc);
    for port in conditions {
        numbers.push(number_at(alloc, names, ports, *port)?)?;
    }
    Ok(numbers)
}
