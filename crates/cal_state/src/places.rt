//! The threads of a plan, and the state that each token of it is. Nesting is bounded, so that the stack holds; a list of statements is a loop.
ghost use Rattle.std.specs.Prelude.{◌≡◌, ◌∷◌, [], ◌++◌, ◌+◌, ◌||◌, not, ℕ, List, map, IfOk, OnOk};
ghost use Rattle.hw_names.specs.Name.{KeepsTexts, Text};
ghost use Rattle.cal_ast.specs.Plan.{plan_at, plans_from, section_plan};
ghost use Rattle.cal_ast.specs.Tree.{control_tree, statement_tree};
ghost use Rattle.cal_token.specs.inside.Tokens.{size};
ghost use Rattle.cal_walk.specs.Left.{is_over};
ghost use Rattle.cal_lower.specs.inside.Statements.{statements_from};
ghost use Rattle.cal_state.specs.inside.Making.{AreTexts, ShowsControl, ShowsPlaces, ShowsRegisters, ShowsPlace, ShowsThread, Walk, one_place, start_walk, with_walk};
ghost use Rattle.cal_state.specs.inside.Making.{at_once_walk, branch_walk, part_walk, plan_walk, turn_walk, turns_walk};
ghost use Rattle.cal_state.specs.inside.Threads.{Place, lasting_states, thread_of};
ghost use Rattle.cal_state.specs.inside.Threads as threads;

use crate::sizes::{after_states, plus};
use crate::threads::{State, Texts, Thread};
use cal_ast::{Assign, CalCell, CalPort, Control, ControlPart};
use cal_lower::{after_part, is_over};
use hw_bits::Memory;
use hw_names::Names;
use net_core::Guard;
use std::alloc::Global;

/// What threads are made of: their registers, that they are in another state than 0, and that they take a state in every row.
#[derive(Drop)]
pub(crate) struct Registers {
    pub texts: Texts,
    pub cells: Vec<CalCell>,
    pub on: Vec<Guard<CalPort>>,
    pub enables: Vec<Assign>,
}

/// The threads of control, and for each of its pieces the state that its register is set for, or that it has none, in their order.
#[derive(Drop)]
pub(crate) struct Places {
    pub registers: Registers,
    pub pieces: Vec<Option<State>>,
}

/// The same of a control section as a whole, and the state in which it is over.
#[derive(Drop)]
pub(crate) struct ControlPlaces {
    pub over: State,
    pub places: Places,
}

/// The state in which a thread has ended, and its first one after that.
const ENDED: u64 = 1;

const FIRST: u64 = 2;

/// A part of a plan: its number, the first of its states in its thread, and whether it starts later than the first of its thread, by a token of its own.
#[derive(Clone, Copy)]
pub(crate) struct Entry {
    pub thread: Thread,
    pub state: u64,
    pub number: u64,
    pub later: bool,
}

impl Entry {
    /// The first of its states.
    fn first(self) -> State
        ensures { result ≡ record { thread = self.thread; number = self.state } }
    {
        State {
            thread: self.thread,
            number: self.state,
        }
    }

    /// The first part inside it.
    fn inner(self, later: bool) -> Result<Entry, Memory>
        ensures { IfOk result (λ at. at ≡ record { thread = self.thread; state = self.state + 1; number = self.number + 1; later = later }) }
    {
        Ok(Entry {
            thread: self.thread,
            state: plus(self.state, 1)?,
            number: plus(self.number, 1)?,
            later,
        })
    }

    /// The part after this one, of the same thread.
    fn after(self, control: &Control) -> Result<Entry, Memory>
        ensures { (source : List Text) (item : ℕ) → let plan = plan_at item (statement_tree source control.now) in
            IfOk result (λ at. at ≡ record { thread = self.thread; state = self.state + lasting_states plan; number = self.number + size plan; later = self.later || not (is_over plan) }) }
    {
        Ok(Entry {
            thread: self.thread,
            state: after_states(self.state, control)?,
            number: after_part(self.number, control)?,
            later: self.later || !is_over(control),
        })
    }
}

impl Registers {
    /// Puts the register of the thread last.
    fn push(&mut self, alloc: Global, thread: Thread) -> Result<(), Memory>
        ensures { (names : List Text) (list : List threads.Thread) (tree : threads.Thread) → ShowsRegisters names list self.old → ShowsThread names tree thread
            → OnOk result (ShowsRegisters names (list ++ tree ∷ []) self.new) }
    {
        self.cells.push(thread.cell(alloc, self.texts)?)?;
        self.on.push(thread.is_on(alloc, self.texts)?)?;
        self.enables.push(thread.enable(self.texts))?;
        Ok(())
    }

    /// A thread, whose register is put last: the number of its part, and its greatest state.
    fn add(
        &mut self,
        alloc: Global,
        names: &mut Names,
        part: u64,
        last: u64,
    ) -> Result<Thread, Memory>
        ensures kept { KeepsTexts names.old names.new }
        ensures thread { IfOk result (ShowsThread names.new (record { part = part; last = last })) }
        ensures made { (list : List threads.Thread) → ShowsRegisters names.old list self.old
            → OnOk result (ShowsRegisters names.new (list ++ record { part = part; last = last } ∷ []) self.new) }
    {
        let thread = Thread::make(alloc, names, part, last)?;
        self.push(alloc, thread)?;
        Ok(thread)
    }
}

impl Places {
    /// Puts the place of a piece last.
    fn push(&mut self, place: Option<State>) -> Result<(), Memory>
        ensures { (names : List Text) (walk : Walk) (tree : Place) → ShowsPlaces names walk self.old → ShowsPlace names tree place
            → OnOk result (ShowsPlaces names (with_walk walk (one_place tree)) self.new) }
    {
        self.pieces.push(place)?;
        Ok(())
    }

    /// Puts the start of a part last, if that is a token of its own.
    fn push_start(&mut self, at: Entry) -> Result<(), Memory>
        ensures { (names : List Text) (thread : threads.Thread) (walk : Walk) → ShowsThread names thread at.thread → ShowsPlaces names walk self.old
            → OnOk result (ShowsPlaces names (with_walk walk (start_walk at.later thread at.state at.number)) self.new) }
    {
        if !at.later {
            return Ok(());
        }
        self.push(Some(at.first()))
    }
}

/// A part, and the parts inside it.
#[cycle(push_part)]
fn push_part(
    alloc: Global,
    names: &mut Names,
    places: &mut Places,
    control: &Control,
    at: Entry,
) -> Result<(), Memory>
    ensures kept { KeepsTexts names.old names.new }
    ensures made { (source : List Text) (item : ℕ) (thread : threads.Thread) (walk : Walk) → ShowsThread names.old thread at.thread → ShowsPlaces names.old walk places.old
        → OnOk result (ShowsPlaces names.new (with_walk walk (part_walk thread at.state at.number (plan_at item (statement_tree source control.now)))) places.new) }
{
    places.push(None)?;
    match control {
        Control::Enable(_) => places.push(Some(at.first())),
        Control::Seq(statements) => push_in_turn(
            alloc,
            names,
            places,
            statements,
            at.inner(false)?,
        ),
        Control::Par(statements) => {
            push_at_once(alloc, names, places, statements, plus(at.number, 1)?)
        }
        Control::If { yes, no, .. } => {
            let on = at.inner(true)?;
            push_turn(alloc, names, places, yes, on)?;
            push_turn(alloc, names, places, no, on.after(yes)?)
        }
        Control::While { body, .. } => {
            places.push(Some(at.first()))?;
            push_turn(alloc, names, places, body, at.inner(true)?)
        }
        Control::Invoke { .. } => places.push(Some(at.first())),
    }
}

/// A part, unless it takes no row; before it its start, if that is a token of its own.
#[cycle(push_part)]
fn push_turn(
    alloc: Global,
    names: &mut Names,
    places: &mut Places,
    control: &Control,
    at: Entry,
) -> Result<(), Memory>
    ensures kept { KeepsTexts names.old names.new }
    ensures made { (source : List Text) (item : ℕ) (thread : threads.Thread) (walk : Walk) → ShowsThread names.old thread at.thread → ShowsPlaces names.old walk places.old
        → OnOk result (ShowsPlaces names.new (with_walk walk (turn_walk at.later thread at.state at.number (plan_at item (statement_tree source control.now)))) places.new) }
{
    if is_over(control) {
        return Ok(());
    }
    places.push_start(at)?;
    push_part(alloc, names, places, control, at)
}

/// Statements in turn, the first of which is this part.
#[cycle(push_part)]
fn push_in_turn(
    alloc: Global,
    names: &mut Names,
    places: &mut Places,
    statements: &[Control],
    first: Entry,
) -> Result<(), Memory>
    ensures kept { KeepsTexts names.old names.new }
    ensures made { (source : List Text) (item : ℕ) (thread : threads.Thread) (walk : Walk) → ShowsThread names.old thread first.thread → ShowsPlaces names.old walk places.old
        → OnOk result (ShowsPlaces names.new
        (with_walk walk (turns_walk first.later thread first.state first.number (plans_from item (statements_from (map (statement_tree source) statements.now))))) places.new) }
{
    let mut at = first;
    for statement in statements {
        push_turn(alloc, names, places, statement, at)?;
        at = at.after(statement)?;
    }
    Ok(())
}

/// Statements at once, the first of which has this number: each has a thread of its own if it takes a row.
#[cycle(push_part)]
fn push_at_once(
    alloc: Global,
    names: &mut Names,
    places: &mut Places,
    statements: &[Control],
    first: u64,
) -> Result<(), Memory>
    ensures kept { KeepsTexts names.old names.new }
    ensures made { (source : List Text) (item : ℕ) (walk : Walk) → ShowsPlaces names.old walk places.old
        → OnOk result (ShowsPlaces names.new
        (with_walk walk (at_once_walk first (plans_from item (statements_from (map (statement_tree source) statements.now))))) places.new) }
{
    let mut number = first;
    for statement in statements {
        push_branch(alloc, names, places, statement, number)?;
        number = after_part(number, statement)?;
    }
    Ok(())
}

/// A statement with a thread of its own, unless it takes no row: that it has ended, and its parts.
#[cycle(push_part)]
fn push_branch(
    alloc: Global,
    names: &mut Names,
    places: &mut Places,
    control: &Control,
    number: u64,
) -> Result<(), Memory>
    ensures kept { KeepsTexts names.old names.new }
    ensures made { (source : List Text) (item : ℕ) (walk : Walk) → ShowsPlaces names.old walk places.old
        → OnOk result (ShowsPlaces names.new (with_walk walk (branch_walk number (plan_at item (statement_tree source control.now)))) places.new) }
{
    if is_over(control) {
        return Ok(());
    }
    let last = after_states(ENDED, control)?;
    let thread = places.registers.add(alloc, names, number, last)?;
    let ended = State {
        thread,
        number: ENDED,
    };
    places.push(Some(ended))?;
    let at = Entry {
        thread,
        state: FIRST,
        number,
        later: false,
    };
    push_part(alloc, names, places, control, at)
}

/// The greatest state of the main thread.
fn last_state(control: &ControlPart) -> Result<u64, Memory>
    ensures { (source : List Text) (item : ℕ) → IfOk result (λ last. last ≡ (thread_of 0 (section_plan item (control_tree source control.now))).last) }
{
    match control {
        ControlPart::Body(statement) => after_states(ENDED, statement),
        ControlPart::Absent | ControlPart::Empty => Ok(ENDED),
    }
}

/// The parts of a control section, in the main thread.
fn push_plan(
    alloc: Global,
    names: &mut Names,
    places: &mut Places,
    control: &ControlPart,
    thread: Thread,
) -> Result<(), Memory>
    ensures kept { KeepsTexts names.old names.new }
    ensures made { (source : List Text) (item : ℕ) (walk : Walk) → let plan = section_plan item (control_tree source control.now) in
        ShowsThread names.old (thread_of 0 plan) thread → ShowsPlaces names.old walk places.old
        → OnOk result (ShowsPlaces names.new (with_walk walk (plan_walk plan)) places.new) }
{
    match control {
        ControlPart::Body(statement) => {
            let at = Entry {
                thread,
                state: FIRST,
                number: 0,
                later: false,
            };
            push_turn(alloc, names, places, statement, at)
        }
        ControlPart::Absent | ControlPart::Empty => Ok(()),
    }
}

/// The threads of a control section, the main one first, and the places of the pieces of its plan.
pub(crate) fn places_of(
    alloc: Global,
    names: &mut Names,
    texts: Texts,
    control: &ControlPart,
) -> Result<ControlPlaces, Memory>
    ensures kept { KeepsTexts names.old names.new }
    ensures made { (source : List Text) (item : ℕ) → AreTexts names.old texts
        → IfOk result (ShowsControl names.new (section_plan item (control_tree source control.now))) }
{
    let mut places = Places {
        registers: Registers {
            texts,
            cells: Vec::new(alloc),
            on: Vec::new(alloc),
            enables: Vec::new(alloc),
        },
        pieces: Vec::new(alloc),
    };
    let last = last_state(control)?;
    let thread = places.registers.add(alloc, names, 0, last)?;
    push_plan(alloc, names, &mut places, control, thread)?;
    let over = State {
        thread,
        number: ENDED,
    };
    Ok(ControlPlaces { over, places })
}
