//! How many states the parts of a statement take. Nesting is bounded, so each statement is gone over a bounded number of times.
ghost use Rattle.std.specs.Prelude.{◌≡◌, ◌+◌, ℕ, List, map, IfOk};
ghost use Rattle.hw_names.specs.Name.{Text};
ghost use Rattle.cal_ast.specs.Plan.{plan_at, plans_from};
ghost use Rattle.cal_ast.specs.Tree.{statement_tree};
ghost use Rattle.cal_lower.specs.inside.Statements.{statements_from};
ghost use Rattle.cal_state.specs.inside.Threads.{lasting_states, states_in};

use cal_ast::Control;
use cal_lower::is_over;
use hw_bits::Memory;

/// The sum; past the greatest number is an end of memory.
pub(crate) fn plus(number: u64, more: u64) -> Result<u64, Memory>
    ensures { IfOk result (λ sum. sum ≡ number + more) }
{
    if more > u64::MAX - number {
        return Err(Memory);
    }
    Ok(number + more)
}

/// The first state after those of a statement that may take no row, in its own thread.
#[cycle(after_states)]
pub(crate) fn after_states(state: u64, control: &Control) -> Result<u64, Memory>
    ensures { (names : List Text) (item : ℕ) → IfOk result (λ next. next ≡ state + lasting_states (plan_at item (statement_tree names control.now))) }
{
    if is_over(control) {
        return Ok(state);
    }
    let inner = plus(state, 1)?;
    match control {
        Control::Enable(_) => Ok(inner),
        Control::Seq(statements) => after_states_in(inner, statements),
        Control::Par(_) => Ok(inner),
        Control::If { yes, no, .. } => {
            let off = after_states(inner, yes)?;
            after_states(off, no)
        }
        Control::While { body, .. } => after_states(inner, body),
        Control::Invoke { .. } => Ok(inner),
    }
}

/// The first state after those of statements.
#[cycle(after_states)]
fn after_states_in(state: u64, statements: &[Control]) -> Result<u64, Memory>
    ensures { (names : List Text) (item : ℕ) → IfOk result (λ next. next ≡ state + states_in (plans_from item (statements_from (map (statement_tree names) statements.now)))) }
{
    let mut next = state;
    for statement in statements {
        next = after_states(next, statement)?;
    }
    Ok(next)
}
