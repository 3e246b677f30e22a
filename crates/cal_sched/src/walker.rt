//! The walk of a component's control beside a run.
ghost use Rattle.std.specs.Prelude.{◌≡◌, ◌<◌, ℕ, All, List, length, map, slice_get, Some, IfOk, OnOk};
ghost use Rattle.hw_names.specs.Name.{Text};
ghost use Rattle.hw_prims.specs.Row.{Row};
ghost use Rattle.cal_ast.specs.Actors.{Actor};
ghost use Rattle.cal_ast.specs.Tree.{Component, Design, PortName};
ghost use Rattle.cal_walk.specs.StageTrees.{progress_tree};
ghost use Rattle.cal_walk.specs.Stages.{Waits};
ghost use Rattle.cal_sched.specs.Walking.{CanWalk, ClearsMarks, GoesOver, IsWalkerOf, SeesRow, TellsActing, TellsDone, is_one, progress, runs_now};
ghost use Rattle.cal_sched.specs.Watching.{ActorIsBelow, AreWithin, WatchIsWithin};

use crate::ports::number_of;
use crate::watch::{Watch, numbers_of, reads_one, watches_of};
use cal_walk::{Controlled, Marks, Seen, Stage};
use hw_bits::Memory;
use hw_names::Names;
use net_row::Sim;
use std::alloc::Global;

/// The control of a component as far as it has come before a row, and which actors act in the row before.
#[derive(Drop)]
pub struct Walker<'a> {
    control: &'a Controlled<'a>,
    watches: Vec<Watch>,
    /// The ports of conditions.
    conditions: Vec<usize>,
    /// The component's port `go`.
    go: usize,
    stage: Stage<'a>,
    /// What was seen of the last row, and what control wanted in it.
    seen: Seen,
    marks: Marks,
    acting: Vec<bool>,
}

/// Which actors are done in the row: those of which a done line reads 1.
fn see_done(sim: &Sim, watches: &[Watch], done: &mut [bool])
    requires within { All (WatchIsWithin sim.now.values) watches.now }
    requires actors { All (ActorIsBelow (length done.old)) watches.now }
    ensures sized { length done.new ≡ length done.old }
    ensures done { TellsDone sim.now.values watches.now done.new }
{
    done.fill(false);
    for watch in watches {
        if reads_one(sim, watch) {
            done[watch.actor] = true;
        }
    }
}

/// Which conditions read 1 in the row.
fn see_conditions(sim: &Sim, conditions: &[usize], reads: &mut [bool])
    requires within { AreWithin sim.now.values conditions.now }
    requires sized { length reads.old ≡ length conditions.now }
    ensures { reads.new ≡ map (is_one sim.now.values) conditions.now }
{
    for (number, port) in conditions.iter().enumerate() {
        reads[number] = sim.value(*port).value() == 1;
    }
}

/// What control sees of the row.
fn see(sim: &Sim, watches: &[Watch], conditions: &[usize], seen: &mut Seen)
    requires watches { All (WatchIsWithin sim.now.values) watches.now }
    requires actors { All (ActorIsBelow (length seen.old.done.items)) watches.now }
    requires conditions { AreWithin sim.now.values conditions.now }
    requires sized { length seen.old.reads.items ≡ length conditions.now }
    ensures { SeesRow sim.now.values watches.now conditions.now seen.old seen.new }
{
    see_done(sim, watches, seen.done.as_mut_slice());
    see_conditions(sim, conditions, seen.reads.as_mut_slice());
}

/// Marks no actor any more.
fn clear(marks: &mut Marks)
    ensures { ClearsMarks marks.old marks.new }
{
    marks.enabled.as_mut_slice().fill(false);
    marks.tested.as_mut_slice().fill(false);
}

/// Whether control runs in the row: it has come so far, or it waits for this go.
fn control_runs(stage: &Stage, go: bool) -> bool
    ensures { (f : ℕ → Actor) (h : ℕ → PortName) → result ≡ runs_now (progress_tree f h stage.now) go }
{
    match stage {
        Stage::Waiting => go,
        Stage::Running(_) => true,
        Stage::Finished => false,
    }
}

/// Where control runs, an actor acts in the row of a test, and where it is enabled and not done.
fn set_acting(marks: &Marks, done: &[bool], runs: bool, acting: &mut [bool])
    requires tested { length marks.now.tested.items ≡ length acting.old }
    requires enabled { length marks.now.enabled.items ≡ length acting.old }
    requires done { length done.now ≡ length acting.old }
    ensures sized { length acting.new ≡ length acting.old }
    ensures acting { TellsActing marks.now done.now runs acting.new }
{
    for (actor, acts) in acting.iter_mut().enumerate() {
        *acts = runs && (marks.tested[actor] || marks.enabled[actor] && !done[actor]);
    }
}

impl<'a> Walker<'a> {
    /// The walk of a component's control before the first row of a run. The names are those of its design, and the ports those of a netlist; the
    /// component is not bare.
    pub fn new(
        alloc: Global,
        names: &Names,
        ports: &Names,
        control: &'a Controlled<'a>,
    ) -> Result<Walker<'a>, Memory>
        requires { (design : Design) × (c : Component) × CanWalk design c names.now ports.now control.now }
        ensures is { (design : Design) (c : Component) → CanWalk design c names.now ports.now control.now
            → IfOk result (IsWalkerOf design c names.now ports.now) }
        ensures waits { (c : Component) → IfOk result (λ walker. progress c names.now walker ≡ Waits) }
    {
        let actors = control.actors();
        let conditions = control.conditions.len();
        Ok(Walker {
            control,
            watches: watches_of(alloc, names, ports, control)?,
            conditions: numbers_of(alloc, names, ports, &control.conditions)?,
            go: number_of(ports, b"go")?,
            stage: Stage::Waiting,
            seen: Seen {
                done: vec![in alloc; false; actors]?,
                reads: vec![in alloc; false; conditions]?,
            },
            marks: Marks {
                enabled: vec![in alloc; false; actors]?,
                tested: vec![in alloc; false; actors]?,
            },
            acting: vec![in alloc; false; actors]?,
        })
    }

    /// Goes over a row that the simulation has evaluated: which actors act in it, and how far control has come after it.
    pub fn go_over(&mut self, alloc: Global, sim: &Sim) -> Result<(), Memory>
        requires { (design : Design) × (c : Component) × (names ports : List Text) × (row : Row)
            × IsWalkerOf design c names ports self.old × (sim.now.values ≡ map row ports) }
        ensures { (design : Design) (c : Component) (names ports : List Text) (row : Row)
            → IsWalkerOf design c names ports self.old → sim.now.values ≡ map row ports
            → OnOk result (GoesOver design c names ports row self.old self.new) }
    {
        let go = sim.value(self.go).value() == 1;
        see(sim, &self.watches, &self.conditions, &mut self.seen);
        clear(&mut self.marks);
        self.stage.mark(&self.control.plan, &mut self.marks);
        let runs = control_runs(&self.stage, go);
        set_acting(
            &self.marks,
            &self.seen.done,
            runs,
            self.acting.as_mut_slice(),
        );
        self.stage = self.stage.next(alloc, &self.control.plan, go, &self.seen)?;
        Ok(())
    }

    /// Whether the actor with this number acts in the row that was gone over last.
    pub fn acts(&self, actor: usize) -> bool
        requires { actor < length self.now.acting.items }
        ensures { slice_get self.now.acting.items actor ≡ Some result }
    {
        self.acting[actor]
    }
}
