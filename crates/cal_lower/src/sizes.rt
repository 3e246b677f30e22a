//! How many numbers the parts of a statement take, and whether it takes a row. Nesting is bounded, so each statement is gone over a bounded number of times.
ghost use Rattle.std.specs.Prelude.{◌≡◌, ◌+◌, ◌^◌, ◌≤◌, ℕ, List, map, IfOk, OnOk};
ghost use Rattle.hw_names.specs.Name.{Text};
ghost use Rattle.cal_ast.specs.Plan.{plan_at, plans_from, section_plan};
ghost use Rattle.cal_ast.specs.Tree.{control_tree, statement_tree};
ghost use Rattle.cal_token.specs.inside.Tokens.{size, sizes};
ghost use Rattle.cal_walk.specs.Left.{are_over, is_over};
ghost use Rattle.cal_lower.specs.inside.Parts.{last_part};
ghost use Rattle.cal_lower.specs.inside.Statements.{statements_from};

use cal_ast::{Control, ControlPart};
use hw_bits::Memory;

/// Whether the statement takes no row.
#[cycle(is_over)]
pub fn is_over(control: &Control) -> bool
    ensures { (names : List Text) (item : ℕ) → result ≡ is_over (plan_at item (statement_tree names control.now)) }
{
    match control {
        Control::Enable(_) => false,
        Control::Seq(statements) => are_over(statements),
        Control::Par(statements) => are_over(statements),
        Control::If { .. } => false,
        Control::While { .. } => false,
        Control::Invoke { .. } => false,
    }
}

/// Whether none of the statements takes a row.
#[cycle(is_over)]
fn are_over(statements: &[Control]) -> bool
    ensures { (names : List Text) (item : ℕ) → result ≡ are_over (plans_from item (statements_from (map (statement_tree names) statements.now))) }
{
    for statement in statements {
        if !is_over(statement) {
            return false;
        }
    }
    true
}

/// The next number; the end of all numbers is an end of memory.
pub(crate) fn after(number: u64) -> Result<u64, Memory>
    ensures { IfOk result (λ next. next ≡ number + 1) }
{
    if number == u64::MAX {
        return Err(Memory);
    }
    Ok(number + 1)
}

/// The first number after those of the parts of a statement, the first of which has this one.
#[cycle(after_part)]
pub fn after_part(number: u64, control: &Control) -> Result<u64, Memory>
    ensures { (names : List Text) (item : ℕ) → IfOk result (λ next. next ≡ number + size (plan_at item (statement_tree names control.now))) }
{
    let inner = after(number)?;
    match control {
        Control::Enable(_) => Ok(inner),
        Control::Seq(statements) => after_parts(inner, statements),
        Control::Par(statements) => after_parts(inner, statements),
        Control::If { yes, no, .. } => {
            let off = after_part(inner, yes)?;
            after_part(off, no)
        }
        Control::While { body, .. } => after_part(inner, body),
        Control::Invoke { .. } => Ok(inner),
    }
}

/// The first number after those of the parts of statements.
#[cycle(after_part)]
fn after_parts(number: u64, statements: &[Control]) -> Result<u64, Memory>
    ensures { (names : List Text) (item : ℕ) → IfOk result (λ next. next ≡ number + sizes (plans_from item (statements_from (map (statement_tree names) statements.now)))) }
{
    let mut next = number;
    for statement in statements {
        next = after_part(next, statement)?;
    }
    Ok(next)
}

/// The number of the last of the statements that takes a row, where the first has this one; where none does, the first's.
pub(crate) fn last_part(number: u64, statements: &[Control]) -> Result<u64, Memory>
    ensures { (names : List Text) (item : ℕ) → IfOk result (λ last. last ≡ last_part number (plans_from item (statements_from (map (statement_tree names) statements.now)))) }
{
    let mut last = number;
    let mut next = number;
    for statement in statements {
        if !is_over(statement) {
            last = next;
        }
        next = after_part(next, statement)?;
    }
    Ok(last)
}

/// The parts of a control section have numbers of 64 bits; the end of all numbers is an end of memory.
pub(crate) fn few_parts(control: &ControlPart) -> Result<(), Memory>
    ensures { (names : List Text) (item : ℕ) → OnOk result (size (section_plan item (control_tree names control.now)) ≤ 2 ^ 64) }
{
    match control {
        ControlPart::Body(statement) => {
            let _after = after_part(0, statement)?;
            Ok(())
        }
        ControlPart::Absent | ControlPart::Empty => Ok(()),
    }
}
