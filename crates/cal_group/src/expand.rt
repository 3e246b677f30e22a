//! Invokes become groups, which are enabled in their place.
ghost use Rattle.std.specs.Prelude.{◌≡◌, ◌+◌, ◌<◌, [], ◌∷◌, ◌++◌, List, Option, true, false, length, map, flat_map, codes, decimal, slice_get, All, Contains, IfOk, OnOk};
ghost use Rattle.hw_names.specs.Name.{AreDistinct, KeepsTexts, Text, text_of};
ghost use Rattle.cal_ast.specs.Invoking.{go_of, made_go};
ghost use Rattle.cal_ast.specs.Items.{control_statements, each, group_items, items_before_control, statements_in, unless_empty};
ghost use Rattle.cal_ast.specs.Numbers.{CellHasNumbers, ComponentHasNumbers, ControlHasNumbers, HasNumbers, StatementHasNumbers};
ghost use Rattle.cal_ast.specs.Ports.{primitive_of};
ghost use Rattle.cal_ast.specs.Rules.{KeepsRules};
ghost use Rattle.cal_ast.specs.Tree.{CellDef, Component, Design, NoStatements, Seq, Statement, cell_tree, component_tree, control_tree, design_of, group_tree, statement_tree};
ghost use Rattle.cal_ast.specs.declared.tree.Group.{Group as GroupOf};
ghost use Rattle.cal_group.specs.Expands.{Expands};
ghost use Rattle.cal_group.specs.inside.Expanded.{expanded, expanded_design, expanded_section, invoke_name};
ghost use Rattle.cal_group.specs.inside.Expansion.{AddsGroups, AreExpansions, AreNamed, CanStart, HasCells, HoldsCells, IsExpansion, IsInvokedGroup, IsLater};
ghost use Rattle.cal_group.specs.inside.Expansion.{binding_sets, counted, done_line, statements_listed, start_set, taking_sets};

use cal_ast::{
    Assign, CalCell, CalComp, CalDesign, CalOk, CalPort, Control, ControlPart, DoneSet, Group,
    InBind, OutBind, PlainDesign,
};
use cal_copy::{add_name, copy_cells, copy_groups, copy_names, copy_sets};
use hw_bits::Memory;
use hw_names::{NameId, Names};
use hw_prims::{Prim, Primitive};
use hw_print::numbered;
use net_core::Src;
use std::alloc::Global;

/// The numbers of the names of the ports that start a cell, and of the port that says that it is done.
#[derive(Clone, Copy)]
struct PortNames {
    go: NameId,
    write_en: NameId,
    done: NameId,
}

/// An invoke, with the port that starts its cell.
#[derive(Clone, Copy)]
struct Call<'a> {
    cell: NameId,
    go: NameId,
    done: NameId,
    ins: &'a [InBind],
    outs: &'a [OutBind],
}

/// What the expansion of a component has made: the names, the groups of the invokes so far, and the item of the next statement.
#[derive(Drop)]
struct Made {
    names: Names,
    groups: Vec<Group>,
    item: u64,
}

/// The cells of a component by the numbers of their names. What is at other numbers is of no account.
#[derive(Drop)]
struct CellTable<'a> {
    by_name: Vec<Option<&'a CalCell>>,
}

/// The cells of a component, and the names of their ports.
#[derive(Clone, Copy)]
struct Cells<'a> {
    source: &'a Names,
    table: &'a CellTable<'a>,
    ports: PortNames,
}

/// The numbers of the names of ports.
fn port_names(names: &mut Names) -> Result<PortNames, Memory>
    ensures named { IfOk result (AreNamed names.new) }
    ensures kept { KeepsTexts names.old names.new }
{
    let go = add_name(names, b"go")?;
    let write_en = add_name(names, b"write_en")?;
    let done = add_name(names, b"done")?;
    Ok(PortNames { go, write_en, done })
}

/// The name of the group of the invoke at this item.
fn group_name(alloc: Global, item: u64) -> Result<Vec<u8>, Memory>
    ensures { IfOk result (λ name. name.items ≡ codes "c$invoke" ++ decimal item) }
{
    numbered(alloc, b"c$invoke", item)
}

/// The port that starts a cell that can be invoked: `go` of a component and of `std_mult_pipe`, `write_en` of registers and memories.
fn start_port(source: &Names, ports: PortNames, cell: &CalCell) -> NameId
    requires { CellHasNumbers source.now cell.now }
    ensures { (names : List Text) (part : Option Component) (go : Text) → AreNamed names ports
        → made_go (primitive_of (cell_tree source.now cell.now)) part ≡ Some go → slice_get names result.0 ≡ Some go }
{
    match Prim::make(source.text(cell.made), &cell.params) {
        Ok(Primitive::StdMultPipe { .. }) => ports.go,
        Ok(_) => ports.write_en,
        Err(_) => ports.go,
    }
}

/// An assignment without a guard.
fn wire(dst: CalPort, src: Src<CalPort>) -> Assign
    ensures { result ≡ record { dst = dst; guard = None; src = src } }
{
    Assign {
        dst,
        guard: None,
        src,
    }
}

/// A port of a cell.
fn port_of(cell: NameId, port: NameId) -> CalPort
    ensures { result ≡ record { cell = Some cell; port = port } }
{
    CalPort {
        cell: Some(cell),
        port,
    }
}

/// Puts what an invoke gives the inputs of its cell last.
fn put_inputs(sets: &mut Vec<Assign>, call: Call<'_>) -> Result<(), Memory>
    ensures { OnOk result (sets.new.items ≡ sets.old.items ++ binding_sets call.entry.cell call.entry.ins.now) }
{
    for bind in call.ins {
        sets.push(wire(port_of(call.cell, bind.port), bind.src))?;
    }
    Ok(())
}

/// Puts where an invoke takes the outputs of its cell last.
fn put_outputs(sets: &mut Vec<Assign>, call: Call<'_>) -> Result<(), Memory>
    ensures { OnOk result (sets.new.items ≡ sets.old.items ++ taking_sets call.entry.cell call.entry.outs.now) }
{
    for bind in call.outs {
        sets.push(wire(bind.dst, Src::Port(port_of(call.cell, bind.port))))?;
    }
    Ok(())
}

/// The group of an invoke: it starts the cell with its inputs, takes its outputs, and is done when the cell is.
fn invoked_group(alloc: Global, name: NameId, call: Call<'_>) -> Result<Group, Memory>
    ensures name { IfOk result (λ group. group.name ≡ name) }
    ensures acts { IfOk result (λ group. group.comb ≡ false) }
    ensures sets { IfOk result (λ group.
        group.sets.items ≡ (binding_sets call.entry.cell call.entry.ins.now ++ start_set call.entry.cell call.entry.go ∷ [])
        ++ taking_sets call.entry.cell call.entry.outs.now) }
    ensures dones { IfOk result (λ group. group.dones.items ≡ done_line name call.entry.cell call.entry.done ∷ []) }
{
    let mut sets = Vec::new(alloc);
    put_inputs(&mut sets, call)?;
    let start = Src::Lit { width: 1, value: 1 };
    sets.push(wire(port_of(call.cell, call.go), start))?;
    put_outputs(&mut sets, call)?;
    let mut dones = Vec::new(alloc);
    dones.push(DoneSet {
        of: name,
        guard: None,
        src: Src::Port(port_of(call.cell, call.done)),
    })?;
    Ok(Group {
        name,
        comb: false,
        sets,
        dones,
    })
}

impl<'a> Cells<'a> {
    /// The port that starts the cell.
    fn start_port(self, cell: NameId) -> NameId
        requires cells { HoldsCells self.source.now self.table.now }
        requires number { cell.0 < length self.source.now }
        ensures { (names : List Text) (design : Design) (c : Component) (go : Text) → HasCells c self.entry.source.now self.entry.table.now
            → AreNamed names self.entry.ports → go_of design c (text_of self.entry.source.now cell) ≡ Some go → slice_get names result.0 ≡ Some go }
    {
        match self.table.by_name[cell.0 as usize] {
            Some(made) => start_port(self.source, self.ports, made),
            None => self.ports.go,
        }
    }
}

/// The item of a statement; the next is that of the one after it.
fn next_item(next: &mut u64) -> Result<u64, Memory>
    ensures item { IfOk result (λ item. item ≡ next.old) }
    ensures next { OnOk result (next.new ≡ next.old + 1) }
{
    let item = *next;
    if item == u64::MAX {
        return Err(Memory);
    }
    *next = item + 1;
    Ok(item)
}

impl Made {
    /// Adds the group of the invoke at an item, and gives the number of its name.
    fn add_group(&mut self, alloc: Global, item: u64, call: Call<'_>) -> Result<NameId, Memory>
        ensures kept { KeepsTexts self.old.names self.new.names }
        ensures item { self.new.item ≡ self.old.item }
        ensures named { IfOk result (λ name. slice_get self.new.names name.0 ≡ Some (invoke_name item)) }
        ensures group { IfOk result (λ name.
            (group : GroupOf) × (self.new.groups.items ≡ self.old.groups.items ++ group ∷ []) × IsInvokedGroup call.entry name group) }
    {
        let text = group_name(alloc, item)?;
        let name = add_name(&mut self.names, &text)?;
        self.groups.push(invoked_group(alloc, name, call)?)?;
        Ok(name)
    }
}

/// Whether a branch or a body is no statement: an empty sequence.
fn is_nothing(statement: &Control) -> bool
    ensures nothing { (names : List Text) → result ≡ true → statement_tree names statement.now ≡ Seq NoStatements }
    ensures something { (names : List Text) (statements : List Statement) → result ≡ false
        → unless_empty (statement_tree names statement.now) statements ≡ statements }
{
    match statement {
        Control::Seq(statements) => statements.is_empty(),
        Control::Enable(_) | Control::Par(_) | Control::If { .. } => false,
        Control::While { .. } | Control::Invoke { .. } => false,
    }
}

/// A statement with an enable in place of each invoke. Only blocks make it recur.
#[cycle(expand)]
fn expand_statement(
    alloc: Global,
    made: &mut Made,
    cells: Cells<'_>,
    statement: &Control,
) -> Result<Control, Memory>
    requires numbers { StatementHasNumbers cells.source.now statement.now }
    requires cells { HoldsCells cells.source.now cells.table.now }
    ensures kept { KeepsTexts made.old.names made.new.names }
    ensures item { OnOk result (made.new.item ≡ made.old.item + length (statements_in (statement_tree cells.entry.source.now statement.now))) }
    ensures groups { (design : Design) (c : Component) → HasCells c cells.entry.source.now cells.entry.table.now → AreNamed made.old.names cells.entry.ports
        → CanStart design c (statements_in (statement_tree cells.entry.source.now statement.now))
        → OnOk result (AddsGroups design c cells.entry.source.now made.new.names made.old.item
        (statements_in (statement_tree cells.entry.source.now statement.now)) made.old.groups.items made.new.groups.items) }
    ensures statement { IfOk result (IsExpansion cells.entry.source.now made.new.names made.old.item (statement_tree cells.entry.source.now statement.now)) }
{
    let item = next_item(&mut made.item)?;
    match statement {
        Control::Enable(group) => Ok(Control::Enable(*group)),
        Control::Seq(statements) => {
            Ok(Control::Seq(expand_statements(alloc, made, cells, statements)?))
        }
        Control::Par(statements) => {
            Ok(Control::Par(expand_statements(alloc, made, cells, statements)?))
        }
        Control::If { port, by, yes, no } => Ok(Control::If {
            port: *port,
            by: *by,
            yes: expand_branch(alloc, made, cells, yes)?,
            no: expand_branch(alloc, made, cells, no)?,
        }),
        Control::While { port, by, body } => Ok(Control::While {
            port: *port,
            by: *by,
            body: expand_branch(alloc, made, cells, body)?,
        }),
        Control::Invoke { cell, ins, outs } => {
            let call = Call {
                cell: *cell,
                go: cells.start_port(*cell),
                done: cells.ports.done,
                ins,
                outs,
            };
            Ok(Control::Enable(made.add_group(alloc, item, call)?))
        }
    }
}

/// The statements of a block.
#[cycle(expand)]
fn expand_statements(
    alloc: Global,
    made: &mut Made,
    cells: Cells<'_>,
    statements: &[Control],
) -> Result<Vec<Control>, Memory>
    requires numbers { All (StatementHasNumbers cells.source.now) statements.now }
    requires cells { HoldsCells cells.source.now cells.table.now }
    ensures kept { KeepsTexts made.old.names made.new.names }
    ensures item { OnOk result (made.new.item ≡ made.old.item + length (statements_listed cells.entry.source.now statements.now)) }
    ensures groups { (design : Design) (c : Component) → HasCells c cells.entry.source.now cells.entry.table.now → AreNamed made.old.names cells.entry.ports
        → CanStart design c (statements_listed cells.entry.source.now statements.now)
        → OnOk result (AddsGroups design c cells.entry.source.now made.new.names made.old.item (statements_listed cells.entry.source.now statements.now)
        made.old.groups.items made.new.groups.items) }
    ensures statements { IfOk result (λ answers.
        AreExpansions cells.entry.source.now made.new.names made.old.item (map (statement_tree cells.entry.source.now) statements.now) answers.items) }
{
    let mut all = Vec::new(alloc);
    for statement in statements {
        all.push(expand_statement(alloc, made, cells, statement)?)?;
    }
    Ok(all)
}

/// A branch or a body; an empty sequence has no item.
#[cycle(expand)]
fn expand_branch(
    alloc: Global,
    made: &mut Made,
    cells: Cells<'_>,
    statement: &Control,
) -> Result<Box<Control>, Memory>
    requires numbers { StatementHasNumbers cells.source.now statement.now }
    requires cells { HoldsCells cells.source.now cells.table.now }
    ensures kept { KeepsTexts made.old.names made.new.names }
    ensures item { OnOk result (made.new.item ≡ made.old.item + length (counted (statement_tree cells.entry.source.now statement.now))) }
    ensures groups { (design : Design) (c : Component) → HasCells c cells.entry.source.now cells.entry.table.now → AreNamed made.old.names cells.entry.ports
        → CanStart design c (counted (statement_tree cells.entry.source.now statement.now))
        → OnOk result (AddsGroups design c cells.entry.source.now made.new.names made.old.item (counted (statement_tree cells.entry.source.now statement.now))
        made.old.groups.items made.new.groups.items) }
    ensures statement { IfOk result (λ answer.
        IsExpansion cells.entry.source.now made.new.names made.old.item (statement_tree cells.entry.source.now statement.now) answer.value) }
{
    if is_nothing(statement) {
        return Ok(Box::new(alloc, Control::Seq(Vec::new(alloc)))?);
    }
    let branch = expand_statement(alloc, made, cells, statement)?;
    Ok(Box::new(alloc, branch)?)
}

/// The control section.
fn expand_control(
    alloc: Global,
    made: &mut Made,
    cells: Cells<'_>,
    control: &ControlPart,
) -> Result<ControlPart, Memory>
    requires numbers { ControlHasNumbers cells.source.now control.now }
    requires cells { HoldsCells cells.source.now cells.table.now }
    ensures kept { KeepsTexts made.old.names made.new.names }
    ensures groups { (design : Design) (c : Component) → HasCells c cells.entry.source.now cells.entry.table.now → AreNamed made.old.names cells.entry.ports
        → CanStart design c (control_statements (control_tree cells.entry.source.now control.now))
        → OnOk result (AddsGroups design c cells.entry.source.now made.new.names made.old.item
        (control_statements (control_tree cells.entry.source.now control.now)) made.old.groups.items made.new.groups.items) }
    ensures control { (later : List Text) → IsLater made.new.names cells.entry.source.now later → IfOk result (λ answer.
        control_tree later answer ≡ expanded_section made.old.item (control_tree cells.entry.source.now control.now)) }
    ensures numbers { (later : List Text) → IsLater made.new.names cells.entry.source.now later → IfOk result (ControlHasNumbers later) }
{
    match control {
        ControlPart::Absent => Ok(ControlPart::Absent),
        ControlPart::Empty => Ok(ControlPart::Empty),
        ControlPart::Body(statement) => Ok(ControlPart::Body(expand_statement(
            alloc, made, cells, statement,
        )?)),
    }
}

/// The number of an item; the end of all numbers is an end of memory.
fn item_number(number: u128) -> Result<u64, Memory>
    ensures { IfOk result (λ item. item ≡ number) }
{
    match u64::try_from(number) {
        Ok(item) => Ok(item),
        Err(_) => Err(Memory),
    }
}

/// The number of the items of groups: a header, the assignments and the done lines of each.
fn count_group_items(groups: &[Group]) -> Result<u64, Memory>
    ensures { (names : List Text) → IfOk result (λ count.
        count ≡ length (flat_map (λ items. items) (each group_items (map (group_tree names) groups.now)))) }
{
    let mut count: u64 = 0;
    for group in groups {
        let own = 1 + group.sets.len() as u128 + group.dones.len() as u128;
        count = item_number(own + count as u128)?;
    }
    Ok(count)
}

/// The item of the first control statement: the signature, the cells, the groups and the continuous assignments stand before it.
fn first_statement(comp: &CalComp) -> Result<u64, Memory>
    ensures { (names : List Text) → IfOk result (λ item. item ≡ length (items_before_control (component_tree names comp.now))) }
{
    let groups = count_group_items(&comp.groups)?;
    let others = 1 + comp.cells.len() as u128 + comp.sets.len() as u128;
    item_number(others + groups as u128)
}

impl<'a> CellTable<'a> {
    /// A place for each name.
    fn new(alloc: Global, names: &Names) -> Result<CellTable<'a>, Memory>
        ensures holds { IfOk result (HoldsCells names.now) }
        ensures distinct { AreDistinct names.now }
    {
        let by_name: Vec<Option<&'a CalCell>> = vec![in alloc; None; names.len()]?;
        Ok(CellTable { by_name })
    }

    /// Notes the cells of a component. The design is in the names.
    fn note(&mut self, cells: &'a [CalCell])
        requires { (cell : CalCell) → Contains cells.now cell → cell.name.0 < length self.old.by_name.items }
        ensures holds { (source : List Text) → All (CellHasNumbers source) cells.now → HoldsCells source self.old → HoldsCells source self.new }
        ensures has { (source : List Text) (c : Component) → AreDistinct source → All (CellHasNumbers source) cells.now
            → c.cells ≡ map (cell_tree source) cells.now → AreDistinct (map (λ (cell : CellDef). cell.name) c.cells) → HasCells c source self.new }
    {
        for cell in cells {
            self.by_name[cell.name.0 as usize] = Some(cell);
        }
    }
}

/// The component with groups for its invokes.
fn expanded_component(
    alloc: Global,
    made: &mut Made,
    cells: Cells<'_>,
    comp: &CalComp,
) -> Result<CalComp, Memory>
    requires numbers { ComponentHasNumbers cells.source.now comp.now }
    requires cells { HoldsCells cells.source.now cells.table.now }
    ensures kept { KeepsTexts made.old.names made.new.names }
    ensures component { (later : List Text) (design : Design) → IsLater made.new.names cells.entry.source.now later
        → HasCells (component_tree cells.entry.source.now comp.now) cells.entry.source.now cells.entry.table.now → AreNamed made.old.names cells.entry.ports
        → CanStart design (component_tree cells.entry.source.now comp.now) (control_statements (control_tree cells.entry.source.now comp.now.control))
        → IfOk result (λ answer.
        (component_tree later answer ≡ expanded design (component_tree cells.entry.source.now comp.now)) × ComponentHasNumbers later answer) }
{
    made.item = first_statement(comp)?;
    made.groups = copy_groups(alloc, &comp.groups)?;
    let control = expand_control(alloc, made, cells, &comp.control)?;
    let groups = std::mem::replace(&mut made.groups, Vec::new(alloc));
    Ok(CalComp {
        name: comp.name,
        ins: Vec::from_slice(alloc, &comp.ins)?,
        outs: Vec::from_slice(alloc, &comp.outs)?,
        cells: copy_cells(alloc, &comp.cells)?,
        groups,
        sets: copy_sets(alloc, &comp.sets)?,
        control,
    })
}

/// The components with groups for their invokes.
fn expanded_components<'a>(
    alloc: Global,
    made: &mut Made,
    ports: PortNames,
    source: &'a CalDesign,
) -> Result<Vec<CalComp>, Memory>
    requires numbers { HasNumbers source.now }
    requires rules { KeepsRules (design_of source.now) }
    requires named { AreNamed made.old.names ports }
    ensures kept { KeepsTexts made.old.names made.new.names }
    ensures trees { (later : List Text) → IsLater made.new.names source.now.names later
        → IfOk result (λ comps. map (component_tree later) comps.items ≡ expanded_design (design_of source.now)) }
    ensures numbers { (later : List Text) → IsLater made.new.names source.now.names later
        → IfOk result (λ comps. All (ComponentHasNumbers later) comps.items) }
{
    let mut table: CellTable<'a> = CellTable::new(alloc, &source.names)?;
    let mut comps = Vec::new(alloc);
    for comp in &source.comps {
        let own: &'a [CalCell] = comp.cells.as_slice();
        table.note(own);
        let cells = Cells {
            source: &source.names,
            table: &table,
            ports,
        };
        comps.push(expanded_component(alloc, made, cells, comp)?)?;
    }
    Ok(comps)
}

/// The design with a group for each invoke, which is enabled in its place. It keeps the rules, the cells and the runs of the design.
pub fn expand_invoke(alloc: Global, ok: &CalOk<'_>) -> Result<PlainDesign, Memory>
    ensures expands { IfOk result (λ plain. Expands (design_of ok.now) (design_of plain.design)) }
    ensures numbers { IfOk result (λ plain. HasNumbers plain.design) }
{
    let source = ok.design();
    let mut names = copy_names(alloc, &source.names)?;
    let ports = port_names(&mut names)?;
    let mut made = Made {
        names,
        groups: Vec::new(alloc),
        item: 0,
    };
    let comps = expanded_components(alloc, &mut made, ports, source)?;
    Ok(PlainDesign {
        design: CalDesign {
            names: made.names,
            comps,
        },
    })
}
