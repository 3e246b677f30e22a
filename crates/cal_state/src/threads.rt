//! The registers of threads, and guards over their states.
ghost use Rattle.std.specs.Prelude.{◌≡◌, ◌++◌, ℕ, List, Option, IfOk, OnOk, decimal, codes};
ghost use Rattle.hw_names.specs.Name.{KeepsTexts, Text};
ghost use Rattle.net_core.specs.Guard.{Compares, GuardTree};
ghost use Rattle.net_core.specs.declared.net.Src.TheVariants.{Lit, Port};
ghost use Rattle.cal_ast.specs.Numbers.{CellHasNumbers, SetHasNumbers};
ghost use Rattle.cal_ast.specs.Tree.{PortName, assignment_tree, cell_tree, port_of};
ghost use Rattle.cal_lower.specs.inside.Pieces.{shown};
ghost use Rattle.cal_lower.specs.inside.Shown.{Shows, ShowsGuard, ShowsName, ShowsPort};
ghost use Rattle.cal_state.specs.inside.Making.{AreTexts, ShowsState, ShowsThread, ShowsWhen, next_set};
ghost use Rattle.cal_state.specs.inside.States.{is_in, is_on, least_width, thread_cell, thread_enable, thread_name, width_of};
ghost use Rattle.cal_state.specs.inside.Threads as threads;

use cal_ast::{Assign, CalCell, CalPort};
use cal_copy::add_name;
use hw_bits::Memory;
use hw_names::{NameId, Names};
use hw_print::numbered;
use net_core::{Cmp, Guard, Src};
use std::alloc::Global;

/// A thread: its register, and the width of that in bits.
#[derive(Clone, Copy)]
pub(crate) struct Thread {
    pub register: NameId,
    pub width: u128,
}

/// A state of a thread.
#[derive(Clone, Copy)]
pub(crate) struct State {
    pub thread: Thread,
    pub number: u64,
}

/// The texts that all wires and registers have in common, by their numbers, and the name of the wire that tells that control is over.
#[derive(Clone, Copy)]
pub(crate) struct Texts {
    pub wire: NameId,
    pub register: NameId,
    pub input: NameId,
    pub enable: NameId,
    pub output: NameId,
    pub over: NameId,
}

impl Texts {
    /// The numbers of the texts, which are added where they are new.
    pub(crate) fn of(names: &mut Names) -> Result<Texts, Memory>
        ensures texts { IfOk result (AreTexts names.new) }
        ensures kept { KeepsTexts names.old names.new }
    {
        let wire = add_name(names, b"std_wire")?;
        let register = add_name(names, b"std_reg")?;
        let input = add_name(names, b"in")?;
        let enable = add_name(names, b"write_en")?;
        let output = add_name(names, b"out")?;
        let over = add_name(names, b"c$over")?;
        Ok(Texts {
            wire,
            register,
            input,
            enable,
            output,
            over,
        })
    }
}

/// A port of a cell.
pub(crate) fn port_of(cell: NameId, port: NameId) -> CalPort
    ensures { (names : List Text) (one other : Text) → ShowsName names one cell → ShowsName names other port → ShowsPort names (port_of one other) result }
{
    CalPort {
        cell: Some(cell),
        port,
    }
}

/// The least width, of at least one bit, in which the number fits.
fn width_of(last: u64) -> u128
    ensures { result ≡ least_width 127 1 last }
{
    let mut width = 1;
    let mut power = 2;
    while last as u128 >= power {
        width += 1;
        power *= 2;
    }
    width
}

/// The name of the register of the thread of the part with this number.
fn register_text(alloc: Global, part: u64) -> Result<Vec<u8>, Memory>
    ensures { IfOk result (λ text. text.items ≡ codes "c$fsm" ++ decimal part) }
{
    numbered(alloc, b"c$fsm", part)
}

impl Thread {
    /// The thread of the part with this number, and its greatest state.
    pub(crate) fn make(
        alloc: Global,
        names: &mut Names,
        part: u64,
        last: u64,
    ) -> Result<Thread, Memory>
        ensures kept { KeepsTexts names.old names.new }
        ensures thread { IfOk result (ShowsThread names.new (record { part = part; last = last })) }
    {
        let text = register_text(alloc, part)?;
        let register = add_name(names, &text)?;
        Ok(Thread {
            register,
            width: width_of(last),
        })
    }

    /// The register.
    pub(crate) fn cell(self, alloc: Global, texts: Texts) -> Result<CalCell, Memory>
        ensures { (names : List Text) (thread : threads.Thread) → AreTexts names texts → ShowsThread names thread self
            → IfOk result (Shows CellHasNumbers cell_tree names (thread_cell thread)) }
    {
        Ok(CalCell {
            name: self.register,
            made: texts.register,
            params: Vec::from_slice(alloc, &[self.width])?,
            external: false,
        })
    }

    /// It takes a state in every row.
    pub(crate) fn enable(self, texts: Texts) -> Assign
        ensures { (names : List Text) (thread : threads.Thread) → AreTexts names texts → ShowsThread names thread self
            → Shows SetHasNumbers assignment_tree names (thread_enable thread) result }
    {
        Assign {
            dst: port_of(self.register, texts.enable),
            guard: None,
            src: Src::Lit { width: 1, value: 1 },
        }
    }

    /// How the register compares to the number of a state.
    fn compare(
        self,
        alloc: Global,
        texts: Texts,
        how: Cmp,
        number: u64,
    ) -> Result<Guard<CalPort>, Memory>
        ensures { (names : List Text) (thread : threads.Thread) → AreTexts names texts → ShowsThread names thread self
            → IfOk result (ShowsGuard names (Compares how (Port (shown (thread_name thread))) (Lit (width_of thread) number))) }
    {
        let state = Src::Lit {
            width: self.width,
            value: number as u128,
        };
        let there = Src::Port(port_of(self.register, texts.output));
        Ok(Guard::Test(how, Box::new(alloc, there)?, Box::new(alloc, state)?))
    }

    /// The thread is in another state than 0.
    pub(crate) fn is_on(self, alloc: Global, texts: Texts) -> Result<Guard<CalPort>, Memory>
        ensures { (names : List Text) (thread : threads.Thread) → AreTexts names texts → ShowsThread names thread self
            → IfOk result (ShowsGuard names (is_on thread)) }
    {
        self.compare(alloc, texts, Cmp::Neq, 0)
    }
}

impl State {
    /// The thread is in the state.
    pub(crate) fn is_in(self, alloc: Global, texts: Texts) -> Result<Guard<CalPort>, Memory>
        ensures { (names : List Text) (state : threads.State) → AreTexts names texts → ShowsState names state self
            → IfOk result (ShowsGuard names (is_in state)) }
    {
        self.thread.compare(alloc, texts, Cmp::Eq, self.number)
    }

    /// The thread comes to the state where the guard is true.
    pub(crate) fn next(self, texts: Texts, guard: Option<Guard<CalPort>>) -> Assign
        ensures { (names : List Text) (state : threads.State) (when : Option (GuardTree PortName)) → AreTexts names texts → ShowsState names state self
            → ShowsWhen names when guard → Shows SetHasNumbers assignment_tree names (next_set state when) result }
    {
        Assign {
            dst: port_of(self.thread.register, texts.input),
            guard,
            src: Src::Lit {
                width: self.thread.width,
                value: self.number as u128,
            },
        }
    }
}
