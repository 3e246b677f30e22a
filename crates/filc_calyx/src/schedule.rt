//! The schedule of a Calyx design's top component under a stimulus, as `sched` writes it.
ghost use Rattle.std.specs.Prelude.{◌≤◌, IfErr, IsErrOf, IfOk};
ghost use Rattle.hw_io.specs.Faults.{Rose};
ghost use Rattle.net_core.specs.Netlist.{netlist_of};
ghost use Rattle.cal_ast.specs.Tree.{Component, Design, design_of};
ghost use Rattle.stim_read.specs.CycleRun.{run_seen};
ghost use Rattle.filc_load.specs.Built.{FitsNet, IsCalReady, IsReady};
ghost use Rattle.filc_stop.specs.Leaving.{Leaves, MakesNone};
ghost use Rattle.filc_stop.specs.Stops.{IsOfRun};
ghost use Rattle.filc_calyx.specs.Made.{IsNetlistFor};
ghost use Rattle.filc_calyx.specs.Means.{Driven};
ghost use Rattle.filc_calyx.specs.Scheduled.{IsDriven, Schedules, outcome_of};
ghost use Rattle.filc_calyx.specs.inside.Scheduling.{CanSchedule, IsScheduleOf, subject_of};

use crate::scheduler::Scheduler;
use crate::top::top_of;
use cal_walk::{Controlled, controls};
use filc_load::{Built, CalBuilt};
use filc_report::write_text;
use filc_stop::{Refusal, Stop};
use hw_bits::Memory;
use hw_io::Sink;
use hw_names::{Names, Word};
use net_core::CycleList;
use std::alloc::Global;

/// A row with a Conflict, and the port that is reported.
#[derive(Drop)]
pub(crate) struct Clash {
    pub(crate) cycle: u64,
    pub(crate) port: Word,
}

/// The text of a schedule, and the Conflict that ended its run, if one did.
#[derive(Drop)]
pub(crate) struct Schedule {
    pub(crate) text: Vec<u8>,
    pub(crate) clash: Option<Clash>,
}

/// The schedule of a component with this control under the list, which is run as this netlist. The names are those of its design.
fn schedule_top(
    alloc: Global,
    names: &Names,
    control: &Controlled,
    built: &Built,
    list: &CycleList,
) -> Result<Schedule, Memory>
    requires ready { IsReady built.now }
    requires fits { FitsNet (netlist_of built.now.net) list.now }
    requires can { (design : Design) × (top : Component) × CanSchedule design top names.now (netlist_of built.now.net) control.now }
    ensures { (design : Design) (top : Component) → CanSchedule design top names.now (netlist_of built.now.net) control.now
        → IfOk result (λ s. IsScheduleOf (subject_of design top names.now (netlist_of built.now.net) (run_seen list.now)) list.now.cycles
        s.clash s.text.items) }
{
    let mut scheduler = Scheduler::new(alloc, names, control, built, list)?;
    let clash = scheduler.go_through(alloc, list)?;
    let Scheduler { text, .. } = scheduler;
    Ok(Schedule { text, clash })
}

/// The schedule of the design's top component under the list, which is run as this netlist.
fn make_schedule(
    alloc: Global,
    design: &CalBuilt,
    built: &Built,
    list: &CycleList,
) -> Result<Schedule, Memory>
    requires design { IsCalReady design.now }
    requires ready { IsReady built.now }
    requires netlist { IsNetlistFor (design_of design.now.design) (netlist_of built.now.net) }
    requires fits { FitsNet (netlist_of built.now.net) list.now }
    ensures { (d : Driven) → IsDriven design.now.design list.now d → IfOk result (λ s. Schedules d (outcome_of s)) }
{
    let tree = &design.design;
    let controls = controls(alloc, tree)?;
    schedule_top(alloc, &tree.names, &controls[top_of(tree)], built, list)
}

/// Writes the schedule of the design's top component under the list: in each row the outputs, and which groups and invokes act. Without a Conflict
/// the external memories follow. The netlist is one of the design.
pub fn write_schedule<O: Sink>(
    alloc: Global,
    design: &CalBuilt,
    built: &Built,
    list: &CycleList,
    out: &mut O,
) -> Result<(), Stop>
    requires design { IsCalReady design.now }
    requires ready { IsReady built.now }
    requires netlist { IsNetlistFor (design_of design.now.design) (netlist_of built.now.net) }
    requires fits { FitsNet (netlist_of built.now.net) list.now }
    ensures leaves { (d : Driven) → IsDriven design.now.design list.now d
        → Leaves MakesNone (λ made. Schedules d) result (O.written out.old) (O.written out.new) }
    ensures stops { IfErr result IsOfRun }
    ensures write_fault { IsErrOf result Stop.WriteFault → Rose (O.faults out.old) (O.faults out.new) }
    ensures never_falls { O.faults out.old ≤ O.faults out.new }
{
    let Schedule { text, clash } = make_schedule(alloc, design, built, list)?;
    write_text(&text, out)?;
    match clash {
        None => Ok(()),
        Some(Clash { cycle, port }) => Err(Stop::Refused(Refusal::Conflict { cycle, port })),
    }
}
