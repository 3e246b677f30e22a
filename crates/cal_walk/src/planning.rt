//! The control of each component as a plan, with its actors and its conditions.
ghost use Rattle.std.specs.Prelude.{◌≡◌, ◌+◌, ◌<◌, true, false, List, All, IfOk, OnOk, codes, length, map, Some};
ghost use Rattle.hw_names.specs.Name.{Text};
ghost use Rattle.cal_ast.specs.Items.{control_statements, items_before_control, statements_in, statements_of, unless_empty};
ghost use Rattle.cal_ast.specs.Numbers as cal;
ghost use Rattle.cal_ast.specs.Plan.{plan_at, plans_from, section_plan};
ghost use Rattle.cal_ast.specs.Ports.{drives_done, is_bare, is_own};
ghost use Rattle.cal_ast.specs.Rules.{KeepsRules};
ghost use Rattle.cal_ast.specs.Tree.{Component, Seq, NoStatements, Statement, assignment_tree, component_tree, control_tree, design_of, port_tree, statement_tree};
ghost use Rattle.cal_ast.specs.declared.tree.CalCell.{CalCell as CellOf};
ghost use Rattle.cal_ast.specs.declared.tree.Group.{Group as GroupOf};
ghost use Rattle.cal_walk.specs.Planning.{AreControlsOf, CanPlan, CanPlanAll, CanPlanBranch, CanPlanSection, CanPlanThis, GoesOver, InvokeNumbers, IsActorOf, IsConditionAt, IsControlOf, IsCounted, IsKnown, IsPlanOf, IsTestedIn, ArePlansOf, NamesGroupIfAny, PutsInvoke, ShowsNames, TellsLast, statements_from};

use crate::plan::Plan;
use cal_ast::{CalCell, CalComp, CalDesign, CalPort, Control, ControlPart, Group, InBind, OutBind};
use hw_bits::Memory;
use hw_names::{NameId, Names};
use std::alloc::Global;

/// An invoke of a component: its item, its cell, what the cell is made of, and its bindings.
#[derive(Clone, Copy)]
pub struct Invoke<'a> {
    pub item: u64,
    pub cell: NameId,
    pub made: NameId,
    pub ins: &'a [InBind],
    pub outs: &'a [OutBind],
}

/// The control of a component: its plan, in which actors are the groups and then the invokes, and conditions are these ports.
#[derive(Drop)]
pub struct Controlled<'a> {
    pub comp: &'a CalComp,
    pub bare: bool,
    pub invokes: Vec<Invoke<'a>>,
    pub conditions: Vec<CalPort>,
    pub plan: Plan,
}

impl<'a> Controlled<'a> {
    /// How many actors there are: groups, and invokes.
    pub fn actors(&self) -> usize
        ensures { result ≡ length self.now.comp.now.groups.items + length self.now.invokes.items }
    {
        self.comp.groups.len() + self.invokes.len()
    }
}

/// By the number of a name: which group of the component under way has it, and what its cell of that name is made of.
#[derive(Drop)]
struct Numbers {
    groups: Vec<usize>,
    made: Vec<NameId>,
}

/// What the plan of a component is made with: the numbers of its groups, the next item, and the invokes and conditions so far.
#[derive(Drop)]
struct Planner<'a, 'n> {
    numbers: &'n Numbers,
    groups: usize,
    item: u64,
    invokes: Vec<Invoke<'a>>,
    conditions: Vec<CalPort>,
}

/// Whether no control starts the component: it has no control section, or an empty one and a continuous assignment of `done`.
fn is_bare(names: &Names, comp: &CalComp) -> bool
    requires { cal.ComponentHasNumbers names.now comp.now }
    ensures { result ≡ is_bare (component_tree names.now comp.now) }
{
    match &comp.control {
        ControlPart::Absent => true,
        ControlPart::Empty => drives_done(names, comp),
        ControlPart::Body(_) => false,
    }
}

/// Whether the port is the component's own port `done`.
fn is_own_done(names: &Names, port: CalPort) -> bool
    requires { cal.PortHasNumbers names.now port }
    ensures { result ≡ is_own (codes "done") (port_tree names.now port) }
{
    match port.cell {
        None => names.text(port.port) == b"done".as_slice(),
        Some(_) => false,
    }
}

/// Whether a continuous assignment drives the component's own port `done`.
fn drives_done(names: &Names, comp: &CalComp) -> bool
    requires { All (cal.SetHasNumbers names.now) comp.now.sets.items }
    ensures { result ≡ drives_done (map (assignment_tree names.now) comp.now.sets.items) }
{
    for set in &comp.sets {
        if is_own_done(names, set.dst) {
            return true;
        }
    }
    false
}

/// The sum; the end of all numbers is an end of memory.
fn plus(items: u64, more: usize) -> Result<u64, Memory>
    ensures { IfOk result (λ sum. sum ≡ items + more) }
{
    match items.checked_add(more as u64) {
        Some(sum) => Ok(sum),
        None => Err(Memory),
    }
}

/// How many items there are after a group: its header, its assignments and its done lines.
fn after_group(items: u64, group: &Group) -> Result<u64, Memory>
    ensures { IfOk result (λ sum. sum ≡ items + 1 + length group.now.sets.items + length group.now.dones.items) }
{
    let header = plus(items, 1)?;
    let sets = plus(header, group.sets.len())?;
    plus(sets, group.dones.len())
}

/// How many items stand before the control statements.
fn items_before_control(comp: &CalComp) -> Result<u64, Memory>
    ensures { (names : List Text) → IfOk result (λ items. items ≡ length (items_before_control (component_tree names comp.now))) }
{
    let cells = plus(1, comp.cells.len())?;
    let mut items = plus(cells, comp.sets.len())?;
    for group in &comp.groups {
        items = after_group(items, group)?;
    }
    Ok(items)
}

impl Numbers {
    fn new(alloc: Global, count: usize) -> Result<Numbers, Memory>
        ensures groups { IfOk result (λ numbers. length numbers.groups.items ≡ count) }
        ensures made { IfOk result (λ numbers. length numbers.made.items ≡ count) }
    {
        let groups = vec![in alloc; 0usize; count]?;
        let made = vec![in alloc; NameId(0); count]?;
        Ok(Numbers { groups, made })
    }

    /// Numbers the groups of a component.
    fn number_groups(&mut self, groups: &[Group])
        requires { All (λ (group : GroupOf). group.name.0 < length self.old.groups.items) groups.now }
        ensures sized { length self.new.groups.items ≡ length self.old.groups.items }
        ensures groups { TellsLast (λ (group : GroupOf). group.name.0) (λ number group. number) groups.now self.new.groups.items }
        ensures made { self.new.made.items ≡ self.old.made.items }
    {
        for (number, group) in groups.iter().enumerate() {
            self.groups[group.name.0 as usize] = number;
        }
    }

    /// Tells what the cells of a component are made of.
    fn name_cells(&mut self, cells: &[CalCell])
        requires { All (λ (cell : CellOf). cell.name.0 < length self.old.made.items) cells.now }
        ensures sized { length self.new.made.items ≡ length self.old.made.items }
        ensures made { TellsLast (λ (cell : CellOf). cell.name.0) (λ number (cell : CellOf). cell.made) cells.now self.new.made.items }
        ensures groups { self.new.groups.items ≡ self.old.groups.items }
    {
        for cell in cells {
            self.made[cell.name.0 as usize] = cell.made;
        }
    }
}

/// Whether the statement is an empty sequence.
fn is_empty_sequence(control: &Control) -> bool
    ensures nothing { (names : List Text) → result ≡ true → statement_tree names control.now ≡ Seq NoStatements }
    ensures something { (names : List Text) (statements : List Statement) → result ≡ false → unless_empty (statement_tree names control.now) statements ≡ statements }
{
    match control {
        Control::Seq(statements) => statements.is_empty(),
        Control::Enable(_) => false,
        Control::Par(_) => false,
        Control::If { .. } => false,
        Control::While { .. } => false,
        Control::Invoke { .. } => false,
    }
}

impl<'a, 'n> Planner<'a, 'n> {
    /// The number of the next item, which is then counted; the end of all numbers is an end of memory.
    fn count_item(&mut self) -> Result<u64, Memory>
        ensures item { IfOk result (λ item. item ≡ self.old.item) }
        ensures counted { OnOk result (IsCounted self.old self.new) }
    {
        let item = self.item;
        if item == u64::MAX {
            return Err(Memory);
        }
        self.item = item + 1;
        Ok(item)
    }

    /// The number of a condition's port, which goes last.
    fn condition(&mut self, port: CalPort) -> Result<usize, Memory>
        ensures { (names : List Text) (c : Component) → CanPlan names c self.old → cal.PortHasNumbers names port
            → IsTestedIn c (port_tree names port) → IfOk result (IsConditionAt names c port self.old self.new) }
    {
        let number = self.conditions.len();
        self.conditions.push(port)?;
        Ok(number)
    }

    /// The number of a condition's group, if it has one.
    fn actor_of(&self, by: Option<NameId>) -> Option<usize>
        requires { (names : List Text) × (c : Component) × CanPlan names c self.now × NamesGroupIfAny names c by }
        ensures { (names : List Text) (c : Component) → CanPlan names c self.now → NamesGroupIfAny names c by → IsActorOf names c by result }
    {
        match by {
            None => None,
            Some(name) => Some(self.numbers.groups[name.0 as usize]),
        }
    }

    /// The number of an invoke, which goes last; the end of all numbers is an end of memory.
    fn invoke(
        &mut self,
        item: u64,
        cell: NameId,
        ins: &'a [InBind],
        outs: &'a [OutBind],
    ) -> Result<usize, Memory>
        requires { (names : List Text) × (c : Component) × CanPlan names c self.old × InvokeNumbers names c cell ins.now outs.now }
        ensures { (names : List Text) (c : Component) → CanPlan names c self.old → InvokeNumbers names c cell ins.now outs.now
            → IfOk result (PutsInvoke names c item cell ins.now outs.now self.old self.new) }
    {
        let Some(number) = self.groups.checked_add(self.invokes.len()) else {
            return Err(Memory);
        };
        let made = self.numbers.made[cell.0 as usize];
        self.invokes.push(Invoke {
            item,
            cell,
            made,
            ins,
            outs,
        })?;
        Ok(number)
    }
}

/// The plan of a statement, which is the next item.
#[cycle(plan_of)]
fn plan_of<'a>(
    alloc: Global,
    planner: &mut Planner<'a, '_>,
    control: &'a Control,
) -> Result<Plan, Memory>
    requires { (names : List Text) × (c : Component) × CanPlanThis names c control.now planner.old }
    ensures { (names : List Text) (c : Component) → CanPlanThis names c control.now planner.old
        → IfOk result (λ plan. GoesOver names c (statements_in (statement_tree names control.now)) planner.old planner.new
        × IsPlanOf names c planner.new (plan_at planner.old.item (statement_tree names control.now)) plan) }
{
    let item = planner.count_item()?;
    match control {
        Control::Enable(name) => Ok(Plan::Enables(planner.numbers.groups[name.0 as usize])),
        Control::Seq(statements) => Ok(Plan::InTurn(plans_of(alloc, planner, statements)?)),
        Control::Par(statements) => Ok(Plan::AtOnce(plans_of(alloc, planner, statements)?)),
        Control::If { port, by, yes, no } => {
            let condition = planner.condition(*port)?;
            let by = planner.actor_of(*by);
            let on = Box::new(alloc, branch_of(alloc, planner, yes)?)?;
            let off = Box::new(alloc, branch_of(alloc, planner, no)?)?;
            Ok(Plan::Chooses {
                condition,
                by,
                on,
                off,
            })
        }
        Control::While { port, by, body } => {
            let condition = planner.condition(*port)?;
            let by = planner.actor_of(*by);
            let body = Box::new(alloc, branch_of(alloc, planner, body)?)?;
            Ok(Plan::Repeats {
                condition,
                by,
                body,
            })
        }
        Control::Invoke { cell, ins, outs } => {
            Ok(Plan::Enables(planner.invoke(item, *cell, ins, outs)?))
        }
    }
}

/// The plan of a branch or a body: an empty sequence there is no item.
#[cycle(plan_of)]
fn branch_of<'a>(
    alloc: Global,
    planner: &mut Planner<'a, '_>,
    control: &'a Control,
) -> Result<Plan, Memory>
    requires { (names : List Text) × (c : Component) × CanPlanBranch names c control.now planner.old }
    ensures { (names : List Text) (c : Component) → CanPlanBranch names c control.now planner.old
        → IfOk result (λ plan. GoesOver names c (unless_empty (statement_tree names control.now) (statements_in (statement_tree names control.now))) planner.old planner.new
        × IsPlanOf names c planner.new (plan_at planner.old.item (statement_tree names control.now)) plan) }
{
    if is_empty_sequence(control) {
        return Ok(Plan::InTurn(Vec::new(alloc)));
    }
    plan_of(alloc, planner, control)
}

/// The plans of statements.
#[cycle(plan_of)]
fn plans_of<'a>(
    alloc: Global,
    planner: &mut Planner<'a, '_>,
    statements: &'a [Control],
) -> Result<Vec<Plan>, Memory>
    requires { (names : List Text) × (c : Component) × CanPlanAll names c statements.now planner.old }
    ensures { (names : List Text) (c : Component) → CanPlanAll names c statements.now planner.old
        → IfOk result (λ plans. GoesOver names c (statements_of (statements_from (map (statement_tree names) statements.now))) planner.old planner.new
        × ArePlansOf names c planner.new (plans_from planner.old.item (statements_from (map (statement_tree names) statements.now))) plans.items) }
{
    let mut plans = Vec::new(alloc);
    for statement in statements {
        plans.push(plan_of(alloc, planner, statement)?)?;
    }
    Ok(plans)
}

/// The plan of a control section; where there is no statement, a plan of nothing.
fn section_of<'a>(
    alloc: Global,
    planner: &mut Planner<'a, '_>,
    control: &'a ControlPart,
) -> Result<Plan, Memory>
    requires { (names : List Text) × (c : Component) × CanPlanSection names c control.now planner.old }
    ensures { (names : List Text) (c : Component) → CanPlanSection names c control.now planner.old
        → IfOk result (λ plan. GoesOver names c (control_statements (control_tree names control.now)) planner.old planner.new
        × IsPlanOf names c planner.new (section_plan planner.old.item (control_tree names control.now)) plan) }
{
    match control {
        ControlPart::Body(statement) => plan_of(alloc, planner, statement),
        ControlPart::Absent | ControlPart::Empty => Ok(Plan::InTurn(Vec::new(alloc))),
    }
}

/// The control of a component, whose groups and cells have these numbers.
fn control_of<'a>(
    alloc: Global,
    names: &Names,
    numbers: &Numbers,
    comp: &'a CalComp,
) -> Result<Controlled<'a>, Memory>
    requires numbers { cal.ComponentHasNumbers names.now comp.now }
    requires shows { ShowsNames names.now (component_tree names.now comp.now) numbers.now }
    requires known { All (IsKnown (component_tree names.now comp.now)) (control_statements (component_tree names.now comp.now).control) }
    ensures { IfOk result (λ control. (control.comp.now ≡ comp.now) × IsControlOf names.now (component_tree names.now comp.now) control) }
{
    let mut planner = Planner {
        numbers,
        groups: comp.groups.len(),
        item: items_before_control(comp)?,
        invokes: Vec::new(alloc),
        conditions: Vec::new(alloc),
    };
    let plan = section_of(alloc, &mut planner, &comp.control)?;
    let Planner {
        invokes,
        conditions,
        ..
    } = planner;
    Ok(Controlled {
        comp,
        bare: is_bare(names, comp),
        invokes,
        conditions,
        plan,
    })
}

/// The control of each component, in text order.
pub fn controls<'a>(alloc: Global, design: &'a CalDesign) -> Result<Vec<Controlled<'a>>, Memory>
    requires numbers { cal.HasNumbers design.now }
    requires rules { KeepsRules (design_of design.now) }
    ensures { IfOk result (λ all. AreControlsOf design.now all.items) }
{
    let mut numbers = Numbers::new(alloc, design.names.len())?;
    let mut all = Vec::new(alloc);
    for comp in &design.comps {
        numbers.number_groups(&comp.groups);
        numbers.name_cells(&comp.cells);
        all.push(control_of(alloc, &design.names, &numbers, comp)?)?;
    }
    Ok(all)
}
