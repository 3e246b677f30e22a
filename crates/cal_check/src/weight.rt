//! What a design weighs, and how many words its memories have.
ghost use Rattle.std.specs.Prelude.{◌≡◌, ◌<◌, ℕ, List, length, map, slice_get, slice_index, sum_by, Some, All, IfOk, IfSome, MatchOption, option_and_then};
ghost use Rattle.hw_names.specs.Name.{Text};
ghost use Rattle.net_core.specs.Guard.{guard_option};
ghost use Rattle.net_core.specs.Weight.{option_nodes, saturated};
ghost use Rattle.cal_ast.specs.Items.{control_statements, statements_in, statements_of, unless_empty};
ghost use Rattle.cal_ast.specs.Numbers.{HasNumbers};
ghost use Rattle.cal_ast.specs.Rules.{CalRules};
ghost use Rattle.cal_ast.specs.Top.{IsTop};
ghost use Rattle.cal_ast.specs.Tree.{CellDef, Component, Design, assignment_tree, component_tree, control_tree, design_of, done_tree, group_tree, port_tree, statement_tree};
ghost use Rattle.hw_prims.specs.Table.{IsMade};
ghost use Rattle.net_core.specs.Words.{made_words};
ghost use Rattle.cal_place.specs.Prototypes.{AreMadeOf, made_component, made_primitive};
ghost use Rattle.cal_place.specs.Signatures.{ShowsSignature};
ghost use Rattle.cal_place.specs.Tables.{AreMade, AreSignatures, ShowsTables};
ghost use Rattle.cal_check.specs.inside.Totals.{AreOwn, ArePartsWhole};
ghost use Rattle.cal_place.specs.Statements.{statements_from};
ghost use Rattle.cal_check.specs.Weight.{AreWords, CellsComeTo, IsTold, IsWeight, assignment_weight, cell_words, done_weight, group_weight, own_weight, own_words, statement_weight};

use cal_ast::{Assign, CalComp, CalDesign, CalOk, CalPort, Control, ControlPart, DoneSet, Group};
use cal_place::{Nesting, PartOrder, Prototype, Signature, Tables, component_of, is_empty_seq};
use hw_bits::Memory;
use net_core::{Guard, guard_nodes};
use std::alloc::Global;

/// The nodes of a guard, if there is one, no more than `2^64 - 1`.
fn option_nodes(guard: &Option<Guard<CalPort>>) -> u64
    ensures { (names : List Text) → result ≡ saturated (option_nodes (guard_option (port_tree names) guard.now)) }
{
    match guard {
        Some(guard) => guard_nodes(guard),
        None => 0,
    }
}

/// What assignments weigh.
fn sets_weight(sets: &[Assign]) -> u64
    ensures { (names : List Text) → result ≡ saturated (sum_by assignment_weight (map (assignment_tree names) sets.now)) }
{
    let mut weight: u64 = 0;
    for set in sets {
        weight = weight
            .saturating_add(1)
            .saturating_add(option_nodes(&set.guard));
    }
    weight
}

/// What done lines weigh.
fn dones_weight(dones: &[DoneSet]) -> u64
    ensures { (names : List Text) → result ≡ saturated (sum_by done_weight (map (done_tree names) dones.now)) }
{
    let mut weight: u64 = 0;
    for done in dones {
        weight = weight
            .saturating_add(1)
            .saturating_add(option_nodes(&done.guard));
    }
    weight
}

/// What groups weigh.
fn groups_weight(groups: &[Group]) -> u64
    ensures { (names : List Text) → result ≡ saturated (sum_by group_weight (map (group_tree names) groups.now)) }
{
    let mut weight: u64 = 0;
    for group in groups {
        let lines = sets_weight(&group.sets).saturating_add(dones_weight(&group.dones));
        weight = weight.saturating_add(lines);
    }
    weight
}

/// What a statement and those inside it weigh.
#[cycle(statement_weight)]
fn statement_weight(statement: &Control) -> u64
    ensures { (names : List Text) → result ≡ saturated (sum_by statement_weight (statements_in (statement_tree names statement.now))) }
{
    match statement {
        Control::Enable(_) => 1,
        Control::Seq(list) => statements_weight(list).saturating_add(1),
        Control::Par(list) => statements_weight(list).saturating_add(1),
        Control::If { yes, no, .. } => {
            branch_weight(yes)
                .saturating_add(branch_weight(no))
                .saturating_add(1)
        }
        Control::While { body, .. } => branch_weight(body).saturating_add(1),
        Control::Invoke { ins, outs, .. } => {
            (ins.len() as u64)
                .saturating_add(outs.len() as u64)
                .saturating_add(1)
        }
    }
}

/// What a branch or a body weighs; one that is no statement weighs nothing.
#[cycle(statement_weight)]
fn branch_weight(statement: &Control) -> u64
    ensures { (names : List Text) → result ≡ saturated (sum_by statement_weight
        (unless_empty (statement_tree names statement.now) (statements_in (statement_tree names statement.now)))) }
{
    if is_empty_seq(statement) {
        return 0;
    }
    statement_weight(statement)
}

/// What the statements of a list weigh.
#[cycle(statement_weight)]
fn statements_weight(list: &[Control]) -> u64
    ensures { (names : List Text) → result ≡ saturated (sum_by statement_weight (statements_of (statements_from (map (statement_tree names) list.now)))) }
{
    let mut weight: u64 = 0;
    for statement in list {
        weight = weight.saturating_add(statement_weight(statement));
    }
    weight
}

/// What the control of a component weighs.
fn control_weight(control: &ControlPart) -> u64
    ensures { (names : List Text) → result ≡ saturated (sum_by statement_weight (control_statements (control_tree names control.now))) }
{
    match control {
        ControlPart::Absent => 0,
        ControlPart::Empty => 0,
        ControlPart::Body(statement) => statement_weight(statement),
    }
}

/// What a component itself weighs.
fn own_weight(comp: &CalComp, signature: &Signature) -> u64
    ensures { (names : List Text) → ShowsSignature signature.now (component_tree names comp.now)
        → result ≡ saturated (own_weight (component_tree names comp.now)) }
{
    let ports = signature.pins.len() as u64;
    let cells = comp.cells.len() as u64;
    let lines = groups_weight(&comp.groups).saturating_add(sets_weight(&comp.sets));
    let control = control_weight(&comp.control);
    ports
        .saturating_add(cells)
        .saturating_add(lines)
        .saturating_add(control)
        .saturating_add(1)
}

/// What each component itself weighs.
fn own_weights(
    alloc: Global,
    design: &CalDesign,
    signatures: &[Signature],
) -> Result<Vec<u64>, Memory>
    requires { AreSignatures (design_of design.now) signatures.now }
    ensures { IfOk result (λ weights. AreOwn (design_of design.now) own_weight weights.items) }
{
    let mut weights = Vec::new(alloc);
    for (number, comp) in design.comps.iter().enumerate() {
        weights.push(own_weight(comp, &signatures[number]))?;
    }
    Ok(weights)
}

/// The words of what a cell is made of, if it is a memory's.
fn words_of(made: Option<Prototype>) -> u64
    requires { IfSome (option_and_then made_primitive made) IsMade }
    ensures { result ≡ made_words (option_and_then made_primitive made) }
{
    match made {
        Some(Prototype::Primitive(prim)) => prim.word_count(),
        _ => 0,
    }
}

/// The words of the memories that are cells of a component.
fn own_words(made: &[Option<Prototype>]) -> u64
    requires { (design : Design) × (cells : List CellDef) × AreMadeOf design cells made.now }
    ensures { (design : Design) (cells : List CellDef) → AreMadeOf design cells made.now → result ≡ saturated (sum_by cell_words cells) }
{
    let mut words: u64 = 0;
    for cell in made {
        words = words.saturating_add(words_of(*cell));
    }
    words
}

/// The words of the memories that are cells of each component.
fn own_words_of_each(alloc: Global, made: &[Vec<Option<Prototype>>]) -> Result<Vec<u64>, Memory>
    requires { (design : Design) × AreMade design made.now }
    ensures { (design : Design) → AreMade design made.now → IfOk result (λ words. AreOwn design own_words words.items) }
{
    let mut words = Vec::new(alloc);
    for cells in made {
        words.push(own_words(cells))?;
    }
    Ok(words)
}

/// The number of the first component with the name `main`; where there is none, of the last.
fn top_of(design: &CalDesign) -> usize
    requires some { 0 < length design.now.comps.items }
    requires numbers { HasNumbers design.now }
    ensures top { IsTop (design_of design.now) result }
    ensures within { result < length design.now.comps.items }
{
    for (number, comp) in design.comps.iter().enumerate() {
        if design.names.text(comp.name) == b"main".as_slice() {
            return number;
        }
    }
    design.comps.len() - 1
}

/// What the component of a cell comes to; nothing where it is made of none.
fn part_comes_to(whole: &[u64], made: Option<Prototype>) -> u64
    requires { IfSome (option_and_then made_component made) (λ part. part < length whole.now) }
    ensures { MatchOption (option_and_then made_component made) (result ≡ 0) (λ part. result ≡ slice_index whole.now part) }
{
    match component_of(made) {
        Some(part) => whole[part],
        None => 0,
    }
}

/// The sum of what the components of cells come to.
fn cells_come_to(whole: &[u64], made: &[Option<Prototype>]) -> u64
    requires { All (λ cell. IfSome (option_and_then made_component cell) (λ part. part < length whole.now)) made.now }
    ensures { (design : Design) (own : Component → ℕ) (n : ℕ) (c : Component) → slice_get design n ≡ Some c → AreMadeOf design c.cells made.now
        → ArePartsWhole design own n whole.now → (parts : ℕ) × CellsComeTo design own c.cells parts × (result ≡ saturated parts) }
{
    let mut sum: u64 = 0;
    for cell in made {
        sum = sum.saturating_add(part_comes_to(whole, *cell));
    }
    sum
}

/// What the top component comes to, where each component has so much of its own: that, and what the components of its
/// cells come to, each cell counted, no more than `2^64 - 1`.
fn come_to(alloc: Global, design: &CalDesign, tables: &Tables, own: &[u64]) -> Result<u64, Memory>
    requires numbers { HasNumbers design.now }
    requires component { 0 < length design.now.comps.items }
    requires rules { CalRules (design_of design.now) }
    requires tables { ShowsTables (design_of design.now) tables.now }
    requires sized { length own.now ≡ length design.now.comps.items }
    ensures { (own_of : Component → ℕ) → AreOwn (design_of design.now) own_of own.now → IfOk result (IsTold (design_of design.now) own_of) }
{
    let nesting = Nesting::of(alloc, &tables.made)?;
    let PartOrder::Parts(order) = &nesting.order else {
        unreachable!();
    };
    let mut whole = vec![in alloc; 0u64; own.len()]?;
    for number in order {
        let parts = cells_come_to(&whole, &tables.made[*number]);
        whole[*number] = own[*number].saturating_add(parts);
    }
    Ok(whole[top_of(design)])
}

/// The weight of a design: what its top component weighs with the components of its cells, each cell counted; from
/// `2^64 - 1` on, that.
pub fn cal_weight(alloc: Global, ok: &CalOk) -> Result<u64, Memory>
    ensures { IfOk result (IsWeight (design_of ok.now)) }
{
    let design = ok.design();
    let tables = Tables::of(alloc, design)?;
    let own = own_weights(alloc, design, &tables.signatures)?;
    come_to(alloc, design, &tables, &own)
}

/// The words of the memories of a design's instances; from `2^64 - 1` on, that.
pub fn cal_words(alloc: Global, ok: &CalOk) -> Result<u64, Memory>
    ensures { IfOk result (AreWords (design_of ok.now)) }
{
    let design = ok.design();
    let tables = Tables::of(alloc, design)?;
    let own = own_words_of_each(alloc, &tables.made)?;
    come_to(alloc, design, &tables, &own)
}
