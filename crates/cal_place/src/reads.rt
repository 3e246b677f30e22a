//! The ports that an assignment or a done line reads.
ghost use Rattle.std.specs.Prelude.{◌++◌, List, map, All, IfOk, OnOk};
ghost use Rattle.hw_names.specs.Name.{Text};
ghost use Rattle.net_core.specs.Graph.{guard_ports, guards_ports, option_ports, source_ports};
ghost use Rattle.net_core.specs.Guard.{guard_option, guard_tree, guards_of, source_tree};
ghost use Rattle.cal_ast.specs.Numbers.{GuardHasNumbers, SourceHasNumbers, WhenHasNumbers};
ghost use Rattle.cal_ast.specs.Tree.{port_tree};
ghost use Rattle.cal_place.specs.ReadPorts.{AddsPorts, AreReads};

use cal_ast::CalPort;
use hw_bits::Memory;
use net_core::{Guard, Src};
use std::alloc::Global;

/// Puts the port that a source reads last, if it reads one.
fn add_source(ports: &mut Vec<CalPort>, src: Src<CalPort>) -> Result<(), Memory>
    ensures { (names : List Text) → SourceHasNumbers names src
        → OnOk result (AddsPorts names ports.old.items ports.new.items (source_ports (source_tree (port_tree names) src))) }
{
    match src {
        Src::Port(port) => {
            ports.push(port)?;
            Ok(())
        }
        Src::Lit { .. } => Ok(()),
    }
}

/// Puts the ports that a guard reads last. It goes over a run of `!` by a loop, so that the stack holds.
#[cycle(add_guard)]
fn add_guard(ports: &mut Vec<CalPort>, guard: &Guard<CalPort>) -> Result<(), Memory>
    ensures { (names : List Text) → GuardHasNumbers names guard.now
        → OnOk result (AddsPorts names ports.old.items ports.new.items (guard_ports (guard_tree (port_tree names) guard.now))) }
{
    let mut inner = guard;
    loop {
        match inner {
            Guard::Not(negated) => inner = negated,
            Guard::All(guards) | Guard::Any(guards) => return add_guards(ports, guards),
            Guard::Read(src) => return add_source(ports, **src),
            Guard::Test(_, left, right) => {
                add_source(ports, **left)?;
                return add_source(ports, **right);
            }
        }
    }
}

/// Puts the ports that the guards of a list read last.
#[cycle(add_guard)]
fn add_guards(ports: &mut Vec<CalPort>, guards: &[Guard<CalPort>]) -> Result<(), Memory>
    ensures { (names : List Text) → All (GuardHasNumbers names) guards.now
        → OnOk result (AddsPorts names ports.old.items ports.new.items (guards_ports (guards_of (map (guard_tree (port_tree names)) guards.now)))) }
{
    for guard in guards {
        add_guard(ports, guard)?;
    }
    Ok(())
}

/// Puts the ports that a guard reads last, if there is one.
fn add_when(ports: &mut Vec<CalPort>, guard: &Option<Guard<CalPort>>) -> Result<(), Memory>
    ensures { (names : List Text) → WhenHasNumbers names guard.now
        → OnOk result (AddsPorts names ports.old.items ports.new.items (option_ports (guard_option (port_tree names) guard.now))) }
{
    match guard {
        Some(guard) => add_guard(ports, guard),
        None => Ok(()),
    }
}

/// The ports that a guard, if there is one, and a source read, in their order.
pub fn ports_read(
    alloc: Global,
    guard: &Option<Guard<CalPort>>,
    src: Src<CalPort>,
) -> Result<Vec<CalPort>, Memory>
    ensures { (names : List Text) → WhenHasNumbers names guard.now → SourceHasNumbers names src
        → IfOk result (λ ports. AreReads names (option_ports (guard_option (port_tree names) guard.now) ++ source_ports (source_tree (port_tree names) src)) ports.items) }
{
    let mut ports = Vec::new(alloc);
    add_when(&mut ports, guard)?;
    add_source(&mut ports, src)?;
    Ok(ports)
}
