//! A run of a netlist, and the walk of control beside it.
ghost use Rattle.std.specs.Prelude.{◌≡◌, ◌++◌, ℕ, Bool, false, List, IfOk, OnOk, map};
ghost use Rattle.hw_names.specs.Name.{Text};
ghost use Rattle.hw_prims.specs.Row.{Row, Trace};
ghost use Rattle.net_core.specs.Netlist.{netlist_of};
ghost use Rattle.net_sim.specs.Layout.{port_names};
ghost use Rattle.cal_ast.specs.Actors.{Actor, actors_of};
ghost use Rattle.cal_ast.specs.Ports.{is_bare};
ghost use Rattle.cal_ast.specs.Tree.{Component, Design};
ghost use Rattle.cal_sched.specs.Walking.{CanWalk};
ghost use Rattle.stim_read.specs.CycleRun.{run_seen};
ghost use Rattle.filc_load.specs.Built.{FitsNet, IsReady};
ghost use Rattle.filc_load.specs.Given.{driven};
ghost use Rattle.filc_calyx.specs.Scheduled.{schedule_line};
ghost use Rattle.filc_calyx.specs.inside.Scheduling.{AreInputsIn, CanSchedule, IsAfterRow, IsBefore, IsScheduleOf, IsSchedulerOf, Subject};
ghost use Rattle.filc_calyx.specs.inside.Scheduling.{Tells, Walks, WalksOver, subject_of};

use crate::labels::labels_of;
use crate::lines::{push_acting, push_outputs};
use crate::memories::push_memories;
use crate::schedule::Clash;
use cal_sched::Walker;
use cal_walk::Controlled;
use filc_load::{Built, name_of};
use filc_report::{Drive, Inputs, make_sim};
use hw_bits::{Bits, Memory};
use hw_names::{Names, Word};
use hw_print::{put, put_number};
use net_core::CycleList;
use net_row::Sim;
use std::alloc::Global;

/// A run of a design's netlist, the walk of its top's control beside it, and the lines of the rows so far.
#[derive(Drop)]
pub(crate) struct Scheduler<'net, 'top> {
    built: &'net Built,
    sim: Sim<'net>,
    /// A bare top has none.
    walker: Option<Walker<'top>>,
    /// What stands in a line for each of the top's actors that acts.
    labels: Vec<Vec<u8>>,
    pub(crate) text: Vec<u8>,
}

/// The walk of a component's control before the first row of a run; a bare one has none. The names are those of its design, and the ports those of a
/// netlist.
fn walker_of<'a>(
    alloc: Global,
    names: &Names,
    ports: &Names,
    control: &'a Controlled<'a>,
) -> Result<Option<Walker<'a>>, Memory>
    requires { (design : Design) × (top : Component) × (control.now.bare ≡ is_bare top)
        × (is_bare top ≡ false → CanWalk design top names.now ports.now control.now) }
    ensures { (design : Design) (top : Component) (trace : Trace) → control.now.bare ≡ is_bare top
        → (is_bare top ≡ false → CanWalk design top names.now ports.now control.now)
        → IfOk result (Walks design top names.now ports.now trace 0) }
{
    if control.bare {
        return Ok(None);
    }
    Ok(Some(Walker::new(alloc, names, ports, control)?))
}

/// Walks control over the row that the simulation has evaluated.
fn walk(alloc: Global, walker: &mut Option<Walker>, sim: &Sim) -> Result<(), Memory>
    requires { (design : Design) × (top : Component) × (names ports : List Text) × (trace : Trace) × (t : ℕ)
        × Walks design top names ports trace t walker.old × (sim.now.values ≡ map (trace t) ports) }
    ensures { (design : Design) (top : Component) (names ports : List Text) (trace : Trace) (t : ℕ)
        → Walks design top names ports trace t walker.old → sim.now.values ≡ map (trace t) ports
        → OnOk result (WalksOver design top names ports trace t walker.new) }
{
    match walker {
        None => Ok(()),
        Some(walker) => walker.go_over(alloc, sim),
    }
}

impl<'net, 'top> Scheduler<'net, 'top> {
    /// A run of the netlist under the list, before its first row. The control is that of the top of the design with these names.
    pub(crate) fn new(
        alloc: Global,
        names: &Names,
        control: &'top Controlled<'top>,
        built: &'net Built,
        list: &CycleList,
    ) -> Result<Scheduler<'net, 'top>, Memory>
        requires ready { IsReady built.now }
        requires fits { FitsNet (netlist_of built.now.net) list.now }
        requires can { (design : Design) × (top : Component) × CanSchedule design top names.now (netlist_of built.now.net) control.now }
        ensures { (design : Design) (top : Component) → CanSchedule design top names.now (netlist_of built.now.net) control.now
            → IfOk result (IsBefore (subject_of design top names.now (netlist_of built.now.net) (run_seen list.now)) 0) }
    {
        let sim = make_sim(alloc, built, list)?;
        let walker = walker_of(alloc, names, &built.table.names, control)?;
        let labels = labels_of(alloc, names, control)?;
        Ok(Scheduler {
            built,
            sim,
            walker,
            labels,
            text: Vec::new(alloc),
        })
    }

    /// Puts the line of the row that was evaluated and walked over last.
    fn push_line(&mut self, cycle: u64) -> Result<(), Memory>
        requires { (x : Subject) × (row : Row) × (acts : Actor → Bool) × IsSchedulerOf x self.old
            × (self.old.sim.values ≡ map row (port_names x.net)) × Tells (actors_of x.top) acts self.old.walker }
        ensures kept { self.new ≡ record self.old { text = self.new.text } }
        ensures line { (x : Subject) (row : Row) (acts : Actor → ℕ → Bool) → IsSchedulerOf x self.old
            → self.old.sim.values ≡ map row (port_names x.net) → Tells (actors_of x.top) (λ actor. acts actor cycle) self.old.walker
            → OnOk result (self.new.text.items ≡ self.old.text.items ++ schedule_line x.top acts cycle row) }
    {
        let built = self.built;
        put_number(&mut self.text, u128::from(cycle))?;
        push_outputs(&mut self.text, &self.sim, &built.net)?;
        put(&mut self.text, b" |")?;
        push_acting(&mut self.text, &self.labels, &self.walker)?;
        put(&mut self.text, b"\n")
    }

    /// Evaluates a row. Where it has no Conflict, its line goes last, and the edge after it is made; else the port that is reported is told.
    fn row(&mut self, alloc: Global, cycle: u64, inputs: &[Bits]) -> Result<Option<usize>, Memory>
        requires { (x : Subject) × IsBefore x cycle self.old × AreInputsIn x cycle inputs.now }
        ensures { (x : Subject) → IsBefore x cycle self.old → AreInputsIn x cycle inputs.now
            → IfOk result (λ port. IsAfterRow x cycle port self.new) }
    {
        if let Err(conflict) = self.sim.row(inputs) {
            return Ok(Some(conflict.port));
        }
        walk(alloc, &mut self.walker, &self.sim)?;
        self.push_line(cycle)?;
        self.sim.edge();
        Ok(None)
    }

    /// Goes through the rows of the run that the list drives, up to a Conflict. Without one the lines of the shown memories follow.
    pub(crate) fn go_through(
        &mut self,
        alloc: Global,
        list: &CycleList,
    ) -> Result<Option<Clash>, Memory>
        requires fits { FitsNet (netlist_of self.old.built.now.net) list.now }
        requires stands { (x : Subject) × IsBefore x 0 self.old × (driven x.net list.now.sets.items ≡ x.inputs) }
        ensures { (x : Subject) → IsBefore x 0 self.old → driven x.net list.now.sets.items ≡ x.inputs
            → IfOk result (λ clash. IsScheduleOf x list.now.cycles clash self.new.text.items) }
    {
        let built = self.built;
        let drive = Drive::Cycles(list);
        let mut inputs = Inputs::new(alloc, &built.net, &built.table, drive)?;
        for cycle in 0..list.cycles {
            inputs.set_row(drive, cycle);
            if let Some(port) = self.row(alloc, cycle, inputs.values())? {
                let port = Word::make(alloc, name_of(&built.table, port))?;
                return Ok(Some(Clash { cycle, port }));
            }
        }
        push_memories(&mut self.text, &self.sim, &built.net)?;
        Ok(None)
    }
}
