//! The lines of a schedule, put last in a text.
ghost use Rattle.std.specs.Prelude.{◌≡◌, ◌++◌, ◌<◌, Bool, List, OnOk, codes, flat_map, length, map};
ghost use Rattle.hw_prims.specs.Row.{Row};
ghost use Rattle.net_core.specs.Netlist.{netlist_of};
ghost use Rattle.net_core.specs.Numbers.{HasNumbers};
ghost use Rattle.net_sim.specs.Layout.{port_names};
ghost use Rattle.cal_ast.specs.Actors.{Actor};
ghost use Rattle.filc_report.specs.Rows.{outputs_of_net, port_text};
ghost use Rattle.filc_calyx.specs.inside.Scheduling.{AreLabelsOf, Tells, TellsActing, label_if};

use cal_sched::Walker;
use hw_bits::Memory;
use hw_print::{put, put_number};
use net_core::Net;
use net_row::Sim;

/// Puts a port with its value last.
fn push_port(text: &mut Vec<u8>, port: &[u8], value: u128) -> Result<(), Memory>
    ensures { OnOk result (text.new.items ≡ text.old.items ++ port_text port.now value) }
{
    put(text, b" ")?;
    put(text, port)?;
    put(text, b"=")?;
    put_number(text, value)
}

/// Puts the outputs of a netlist last, each with its value in the row that was evaluated.
pub(crate) fn push_outputs(text: &mut Vec<u8>, sim: &Sim, net: &Net) -> Result<(), Memory>
    requires numbers { HasNumbers net.now }
    requires evaluated { length sim.now.values ≡ length (port_names (netlist_of net.now)) }
    ensures { (row : Row) → sim.now.values ≡ map row (port_names (netlist_of net.now))
        → OnOk result (text.new.items ≡ text.old.items ++ flat_map (λ port. port_text port (row port)) (outputs_of_net (netlist_of net.now))) }
{
    let first = net.ins.len();
    for (at, output) in net.outs.iter().enumerate() {
        let value = sim.value(first + at).value();
        push_port(text, net.names.text(output.name), value)?;
    }
    Ok(())
}

/// Puts the labels of the actors last that act in the row that the walker has gone over.
fn push_labels(text: &mut Vec<u8>, labels: &[Vec<u8>], walker: &Walker) -> Result<(), Memory>
    requires { (actors : List Actor) × (acts : Actor → Bool) × AreLabelsOf actors labels.now × TellsActing actors acts walker.now }
    ensures { (actors : List Actor) (acts : Actor → Bool) → AreLabelsOf actors labels.now → TellsActing actors acts walker.now
        → OnOk result (text.new.items ≡ text.old.items ++ flat_map (label_if acts) actors) }
{
    for (actor, label) in labels.iter().enumerate() {
        if walker.acts(actor) {
            put(text, label)?;
        }
    }
    Ok(())
}

/// The same; without a walker no actor acts.
pub(crate) fn push_acting(
    text: &mut Vec<u8>,
    labels: &[Vec<u8>],
    walker: &Option<Walker>,
) -> Result<(), Memory>
    requires { (actors : List Actor) × (acts : Actor → Bool) × AreLabelsOf actors labels.now × Tells actors acts walker.now }
    ensures { (actors : List Actor) (acts : Actor → Bool) → AreLabelsOf actors labels.now → Tells actors acts walker.now
        → OnOk result (text.new.items ≡ text.old.items ++ flat_map (label_if acts) actors) }
{
    match walker {
        None => Ok(()),
        Some(walker) => push_labels(text, labels, walker),
    }
}
