//! A component whose threads have registers, made of the one whose tokens have.
ghost use Rattle.std.specs.Prelude.{◌≡◌, ◌∷◌, [], ◌++◌, ℕ, List, map, flat_map, take, drop, length, IfOk, OnOk, codes};
ghost use Rattle.std.specs.List.{AllZip};
ghost use Rattle.hw_names.specs.Name.{KeepsTexts, Text};
ghost use Rattle.net_core.specs.Guard.{GuardTree};
ghost use Rattle.cal_ast.specs.Numbers.{CellHasNumbers, ComponentHasNumbers};
ghost use Rattle.cal_ast.specs.Plan.{Plan};
ghost use Rattle.cal_ast.specs.Tree.{Assignment, CellDef, PortName, cell_tree, component_tree, group_tree};
ghost use Rattle.cal_lower.specs.inside.Lowered.{group_pieces, instance_pieces, lowered, with_registers};
ghost use Rattle.cal_lower.specs.inside.Pieces.{Piece, Register, Wire, any_of, piece, piece_sets};
ghost use Rattle.cal_lower.specs.inside.Shown.{ShowAll, Shows, ShowsGuard, ShowsGuards, ShowsName};
ghost use Rattle.cal_state.specs.inside.Encoded.{busy_guard, encoded, instance_wires, over_set, over_state, with_states};
ghost use Rattle.cal_state.specs.inside.Making.{AreTexts, HasKind, ShowSets, ShowsEncoding, ShowsPlace, ShowsState, ShowsWhen, next_set, wire_cell, wire_def};
ghost use Rattle.cal_state.specs.inside.States.{all_next_sets, as_wire, as_wires, is_in, is_on, next_sets};
ghost use Rattle.cal_state.specs.inside.Threads.{Place, threads};
ghost use Rattle.cal_state.specs.inside.Threads as plan_threads;

use crate::places::{ControlPlaces, Places, places_of};
use crate::threads::{State, Texts, port_of};
use cal_ast::{Assign, CalCell, CalComp, CalPort, ControlPart, Group};
use hw_bits::Memory;
use hw_names::{NameId, Names};
use net_core::{Guard, Src};
use std::alloc::Global;
use std::collections::VecDeque;

/// The assignments that are still to come, and those that were made of the ones before: those of the source and of wires, and those that bring threads to
/// states.
#[derive(Drop)]
pub(crate) struct Sets {
    pub left: VecDeque<Assign>,
    pub wires: Vec<Assign>,
    pub states: Vec<Assign>,
}

/// One of the guards is true; of none, in no row.
fn any_of(alloc: Global, mut guards: Vec<Guard<CalPort>>) -> Result<Guard<CalPort>, Memory>
    ensures { (names : List Text) (trees : List (GuardTree PortName)) → ShowsGuards names trees guards.items
        → IfOk result (ShowsGuard names (any_of trees)) }
{
    if guards.len() >= 2 {
        return Ok(Guard::Any(guards));
    }
    match guards.pop() {
        Some(guard) => Ok(guard),
        None => Ok(Guard::Read(Box::new(alloc, Src::Lit { width: 1, value: 0 })?)),
    }
}

/// A thread is in another state than 0, and control isn't over.
fn busy_guard(
    alloc: Global,
    texts: Texts,
    on: Vec<Guard<CalPort>>,
) -> Result<Guard<CalPort>, Memory>
    ensures { (names : List Text) (plan : Plan) → AreTexts names texts → ShowsGuards names (map is_on (threads plan)) on.items
        → IfOk result (ShowsGuard names (busy_guard plan)) }
{
    let over = Box::new(alloc, Src::Port(port_of(texts.over, texts.output)))?;
    let over = Guard::Read(over);
    let mut both = Vec::new(alloc);
    both.push(any_of(alloc, on)?)?;
    both.push(Guard::Not(Box::new(alloc, over)?))?;
    Ok(Guard::All(both))
}

impl Sets {
    /// All are still to come.
    fn of(alloc: Global, sets: Vec<Assign>) -> Sets
        ensures { (names : List Text) (trees : List Assignment) → ShowSets names trees sets.items
            → ShowsEncoding names (record { left = trees; wires = []; states = [] }) result }
    {
        Sets {
            left: VecDeque::from(sets),
            wires: Vec::new(alloc),
            states: Vec::new(alloc),
        }
    }

    /// The next assignment stays as it is.
    fn stay(&mut self) -> Result<(), Memory>
        ensures { (names : List Text) (set : Assignment) (left wires states : List Assignment)
            → ShowsEncoding names (record { left = set ∷ left; wires = wires; states = states }) self.old
            → OnOk result (ShowsEncoding names (record { left = left; wires = wires ++ set ∷ []; states = states }) self.new) }
    {
        let Some(set) = self.left.pop_front() else {
            return Ok(());
        };
        self.wires.push(set)?;
        Ok(())
    }

    /// So many assignments stay as they are.
    fn stay_all(&mut self, count: usize) -> Result<(), Memory>
        ensures { (names : List Text) (sets left wires states : List Assignment) → length sets ≡ count
            → ShowsEncoding names (record { left = sets ++ left; wires = wires; states = states }) self.old
            → OnOk result (ShowsEncoding names (record { left = left; wires = wires ++ sets; states = states }) self.new) }
    {
        for number in 0..count {
            self.stay()?;
        }
        Ok(())
    }

    /// The next register becomes a wire that is 1 where the guard is true, and is no longer enabled. What drove it is the answer.
    fn replace(&mut self, guard: Guard<CalPort>) -> Result<Option<Guard<CalPort>>, Memory>
        ensures { (names : List Text) (p : Piece) (tree : GuardTree PortName) (left wires states : List Assignment) → p.kind ≡ Register → ShowsGuard names tree guard
            → ShowsEncoding names (record { left = piece_sets p ++ left; wires = wires; states = states }) self.old
            → IfOk result (λ drove. ShowsWhen names p.guard drove
            × ShowsEncoding names (record { left = left; wires = wires ++ piece_sets (piece Wire p.name tree); states = states }) self.new) }
    {
        let Some(set) = self.left.pop_front() else {
            return Ok(None);
        };
        let Some(_enable) = self.left.pop_front() else {
            return Ok(None);
        };
        let Assign {
            dst,
            guard: drove,
            ..
        } = set;
        self.wires.push(Assign {
            dst,
            guard: Some(guard),
            src: Src::Lit { width: 1, value: 1 },
        })?;
        Ok(drove)
    }

    /// The next register becomes a wire that is 1 in the state, and what drove it brings the thread there.
    fn hold(&mut self, texts: Texts, state: State) -> Result<(), Memory>
        ensures { (names : List Text) (p : Piece) (tree : plan_threads.State) (left wires states : List Assignment) → AreTexts names texts → p.kind ≡ Register
            → ShowsState names tree state → ShowsEncoding names (record { left = piece_sets p ++ left; wires = wires; states = states }) self.old
            → OnOk result (ShowsEncoding names
            (record { left = left; wires = wires ++ piece_sets (piece Wire p.name (is_in tree)); states = states ++ next_set tree p.guard ∷ [] }) self.new) }
    {
        let guard = state.is_in(*self.wires.allocator(), texts)?;
        let drove = self.replace(guard)?;
        self.states.push(state.next(texts, drove))?;
        Ok(())
    }

    /// The next piece, in its place.
    fn push_piece(&mut self, texts: Texts, place: Option<State>) -> Result<(), Memory>
        ensures { (names : List Text) (p : Piece) (tree : Place) (left wires states : List Assignment) → AreTexts names texts → HasKind tree p
            → ShowsPlace names tree place → ShowsEncoding names (record { left = piece_sets p ++ left; wires = wires; states = states }) self.old
            → OnOk result (ShowsEncoding names
            (record { left = left; wires = wires ++ piece_sets (as_wire p tree); states = states ++ next_sets p tree }) self.new) }
    {
        match place {
            None => self.stay(),
            Some(state) => self.hold(texts, state),
        }
    }

    /// Pieces, each in its place.
    fn push_pieces(&mut self, texts: Texts, places: &[Option<State>]) -> Result<(), Memory>
        ensures { (names : List Text) (pieces : List Piece) (trees : List Place) (left wires states : List Assignment) → AreTexts names texts
            → AllZip HasKind trees pieces → AllZip (ShowsPlace names) trees places.now
            → ShowsEncoding names (record { left = flat_map piece_sets pieces ++ left; wires = wires; states = states }) self.old
            → OnOk result (ShowsEncoding names
            (record { left = left; wires = wires ++ flat_map piece_sets (as_wires pieces trees); states = states ++ all_next_sets pieces trees }) self.new) }
    {
        for place in places {
            self.push_piece(texts, *place)?;
        }
        Ok(())
    }

    /// The assignments of the source, and then what tells where control starts, runs and is over.
    fn push_instance(
        &mut self,
        texts: Texts,
        own: usize,
        busy: Guard<CalPort>,
        over: State,
    ) -> Result<(), Memory>
        ensures { (names : List Text) (plan : Plan) (sets left : List Assignment) → AreTexts names texts → length sets ≡ own
            → ShowsGuard names (busy_guard plan) busy → ShowsState names (over_state plan) over
            → ShowsEncoding names (record { left = sets ++ (flat_map piece_sets (instance_pieces plan) ++ left); wires = []; states = [] }) self.old
            → OnOk result (ShowsEncoding names
            (record { left = left; wires = sets ++ flat_map piece_sets (instance_wires plan); states = over_set plan ∷ [] }) self.new) }
    {
        self.stay_all(own)?;
        self.stay()?;
        let _runs = self.replace(busy)?;
        self.hold(texts, over)
    }

    /// The wires of groups.
    fn push_groups(&mut self, groups: &[Group]) -> Result<(), Memory>
        ensures { (names source : List Text) (plan : Plan) (left wires states : List Assignment)
            → let sets = flat_map piece_sets (flat_map (group_pieces plan) (map (group_tree source) groups.now)) in
            ShowsEncoding names (record { left = sets ++ left; wires = wires; states = states }) self.old
            → OnOk result (ShowsEncoding names (record { left = left; wires = wires ++ sets; states = states }) self.new) }
    {
        for group in groups {
            self.stay()?;
            self.stay_all(group.dones.len())?;
        }
        Ok(())
    }

    /// All that was made, then what enables the threads' registers, and last what is still to come.
    fn finish(self, enables: Vec<Assign>) -> Result<Vec<Assign>, Memory>
        ensures { (names : List Text) (set : Assignment) (wires states more : List Assignment)
            → ShowsEncoding names (record { left = set ∷ []; wires = wires; states = states }) self
            → ShowSets names more enables.items → IfOk result (λ sets. ShowSets names (wires ++ (states ++ more) ++ set ∷ []) sets.items) }
    {
        let Sets {
            mut left,
            mut wires,
            mut states,
        } = self;
        let mut enables = enables;
        wires.append(&mut states)?;
        wires.append(&mut enables)?;
        let Some(set) = left.pop_front() else {
            return Ok(wires);
        };
        wires.push(set)?;
        Ok(wires)
    }
}

/// Cells with wires in place of registers.
fn wire_cells(alloc: Global, cells: Vec<CalCell>, wire: NameId) -> Result<Vec<CalCell>, Memory>
    ensures { IfOk result (λ wires. wires.items ≡ map (wire_cell wire) cells.items) }
{
    Ok(
        cells
            .into_iter()
            .map(|cell| CalCell { made: wire, ..cell })
            .collect(alloc)?,
    )
}

/// The cells after so many, which are taken off.
fn take_off(cells: &mut Vec<CalCell>, own: usize) -> Result<Vec<CalCell>, Memory>
    ensures own { OnOk result (cells.new.items ≡ take own cells.old.items) }
    ensures rest { IfOk result (λ rest. rest.items ≡ drop own cells.old.items) }
{
    let own = own.min(cells.len());
    Ok(cells.split_off(own)?)
}

/// The cells, with wires in place of those after so many, and then the registers of threads.
fn encoded_cells(
    alloc: Global,
    wire: NameId,
    cells: Vec<CalCell>,
    own: usize,
    registers: Vec<CalCell>,
) -> Result<Vec<CalCell>, Memory>
    ensures { (names : List Text) (first added more : List CellDef) → length first ≡ own → ShowsName names (codes "std_wire") wire
        → ShowAll CellHasNumbers cell_tree names (first ++ added) cells.items → ShowAll CellHasNumbers cell_tree names more registers.items
        → IfOk result (λ all. ShowAll CellHasNumbers cell_tree names (first ++ map wire_def added ++ more) all.items) }
{
    let mut all = cells;
    let added = take_off(&mut all, own)?;
    let mut wires = wire_cells(alloc, added, wire)?;
    let mut registers = registers;
    all.append(&mut wires)?;
    all.append(&mut registers)?;
    Ok(all)
}

/// The component with registers for its threads, made of the one with registers of one bit; its source says which threads there are.
fn with_states(
    alloc: Global,
    names: &mut Names,
    source: &CalComp,
    bits: CalComp,
) -> Result<CalComp, Memory>
    ensures kept { KeepsTexts names.old names.new }
    ensures encoded { (texts : List Text) → Shows ComponentHasNumbers component_tree names.old (with_registers (component_tree texts source.now)) bits
        → IfOk result (Shows ComponentHasNumbers component_tree names.new (with_states (component_tree texts source.now))) }
{
    let texts = Texts::of(names)?;
    let control = places_of(alloc, names, texts, &source.control)?;
    let ControlPlaces { over, places } = control;
    let Places { registers, pieces } = places;
    let CalComp {
        name,
        ins,
        outs,
        cells,
        groups,
        sets,
        ..
    } = bits;
    let busy = busy_guard(alloc, texts, registers.on)?;
    let own = source.cells.len();
    let cells = encoded_cells(alloc, texts.wire, cells, own, registers.cells)?;
    let mut parts = Sets::of(alloc, sets);
    parts.push_instance(texts, source.sets.len(), busy, over)?;
    parts.push_groups(&source.groups)?;
    parts.push_pieces(texts, &pieces)?;
    let sets = parts.finish(registers.enables)?;
    Ok(CalComp {
        name,
        ins,
        outs,
        cells,
        groups,
        sets,
        control: ControlPart::Absent,
    })
}

/// The component without control, made of the one with registers of one bit. A bare one has none, and stays as it is.
pub(crate) fn encode(
    alloc: Global,
    names: &mut Names,
    source: &CalComp,
    bits: CalComp,
) -> Result<CalComp, Memory>
    ensures kept { KeepsTexts names.old names.new }
    ensures encoded { (texts : List Text) → Shows ComponentHasNumbers component_tree names.old (lowered (component_tree texts source.now)) bits
        → IfOk result (Shows ComponentHasNumbers component_tree names.new (encoded (component_tree texts source.now))) }
{
    if bits.cells.len() == source.cells.len() {
        return Ok(bits);
    }
    with_states(alloc, names, source, bits)
}
