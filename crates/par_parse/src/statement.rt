//! Statements without blocks, from terminals.
ghost use Rattle.std.specs.Prelude.{List, map};
ghost use Rattle.hw_grammar.specs.Reading.{GivesNamed, mapped};
ghost use Rattle.hw_names.specs.Name.{Text};
ghost use Rattle.par_parse.specs.Tree.{expression_tree, name_tree, giving_tree, statement_tree};
ghost use Rattle.par_parse.specs.inside.Reading.{call_at, given_parameters_at, new_at, called_at, connected_at, named_statement_at, plain_statement_at};

use crate::expression::read_expressions;
use crate::name::read_indexed;
use crate::time::read_times;
use crate::tree::{Expression, ParamName, ParamStatement, ParamTime, ParamValue};
use crate::value::{read_value, read_values};
use hw_grammar::{ReadEnd, Sort, Terminal, read_name, read_one, starts};
use std::alloc::Global;

/// Times and arguments of an invocation.
#[tactic(auto, unfolding(crate::specs::inside::Reading::call_at))]
fn read_call(
    alloc: Global,
    ts: &[Terminal],
) -> Result<((Vec<ParamTime>, Vec<ParamValue>), &[Terminal]), ReadEnd<'_>>
    ensures { GivesNamed (λ names x. (giving_tree names x.0.0.items x.0.1.items, x.1.now)) result (λ names. call_at names ts.now) }
{
    let (at, rest) = read_times(alloc, ts)?;
    let (args, rest) = read_values(alloc, rest)?;
    Ok(((at, args), rest))
}

/// `["[" expr {"," expr} "]"]`
#[tactic(auto, unfolding(crate::specs::inside::Reading::given_parameters_at))]
fn parameters_or_none(
    alloc: Global,
    ts: &[Terminal],
) -> Result<(Vec<Expression>, &[Terminal]), ReadEnd<'_>>
    ensures { GivesNamed (λ names x. (map (expression_tree names) x.0.items, x.1.now)) result (λ names. given_parameters_at names ts.now) }
{
    if starts(ts, Sort::LeftBracket) {
        let (_, rest) = read_one(ts, Sort::LeftBracket)?;
        let (params, rest) = read_expressions(alloc, rest)?;
        let (_, rest) = read_one(rest, Sort::RightBracket)?;
        Ok((params, rest))
    } else {
        Ok((Vec::new(alloc), ts))
    }
}

/// What follows `NAME ["#" atom] ":=" "new"`: an instance, and its invocation where there is one.
#[tactic(auto, unfolding(crate::specs::inside::Reading::new_at))]
fn read_new(
    alloc: Global,
    name: ParamName,
    ts: &[Terminal],
) -> Result<(ParamStatement, &[Terminal]), ReadEnd<'_>>
    ensures { GivesNamed (λ names x. (statement_tree names x.0, x.1.now)) result (λ names. mapped (λ f. f (name_tree names name)) (new_at names) ts.now) }
{
    let (comp, rest) = read_name(ts)?;
    let (params, rest) = parameters_or_none(alloc, rest)?;
    if starts(rest, Sort::LeftAngle) {
        let ((at, args), rest) = read_call(alloc, rest)?;
        let (_, rest) = read_one(rest, Sort::Semicolon)?;
        let statement = ParamStatement::Both {
            name,
            comp,
            params,
            at,
            args,
        };
        Ok((statement, rest))
    } else {
        let (_, rest) = read_one(rest, Sort::Semicolon)?;
        Ok((ParamStatement::New { name, comp, params }, rest))
    }
}

/// What follows `NAME ["#" atom] ":="` where no `new` is: an invocation.
#[tactic(auto, unfolding(crate::specs::inside::Reading::called_at))]
fn read_called(
    alloc: Global,
    name: ParamName,
    ts: &[Terminal],
) -> Result<(ParamStatement, &[Terminal]), ReadEnd<'_>>
    ensures { GivesNamed (λ names x. (statement_tree names x.0, x.1.now)) result (λ names. mapped (λ f. f (name_tree names name)) (called_at names) ts.now) }
{
    let (inst, rest) = read_indexed(alloc, ts)?;
    let ((at, args), rest) = read_call(alloc, rest)?;
    let (_, rest) = read_one(rest, Sort::Semicolon)?;
    let statement = ParamStatement::Call {
        name,
        inst,
        at,
        args,
    };
    Ok((statement, rest))
}

/// What follows `NAME ["#" atom] "="`: a connection.
#[tactic(auto, unfolding(crate::specs::inside::Reading::connected_at))]
fn read_connected(
    alloc: Global,
    dst: ParamName,
    ts: &[Terminal],
) -> Result<(ParamStatement, &[Terminal]), ReadEnd<'_>>
    ensures { GivesNamed (λ names x. (statement_tree names x.0, x.1.now)) result (λ names. mapped (λ f. f (name_tree names dst)) (connected_at names) ts.now) }
{
    let (value, rest) = read_value(alloc, ts)?;
    let (_, rest) = read_one(rest, Sort::Semicolon)?;
    Ok((ParamStatement::Set { dst, value }, rest))
}

/// What follows the name of a statement.
#[tactic(auto, unfolding(crate::specs::inside::Reading::named_statement_at))]
fn read_named_statement(
    alloc: Global,
    name: ParamName,
    ts: &[Terminal],
) -> Result<(ParamStatement, &[Terminal]), ReadEnd<'_>>
    ensures { GivesNamed (λ names x. (statement_tree names x.0, x.1.now)) result
        (λ names. mapped (λ f. f (name_tree names name)) (named_statement_at names) ts.now) }
{
    if starts(ts, Sort::ColonEquals) {
        let (_, rest) = read_one(ts, Sort::ColonEquals)?;
        if starts(rest, Sort::New) {
            let (_, rest) = read_one(rest, Sort::New)?;
            read_new(alloc, name, rest)
        } else {
            read_called(alloc, name, rest)
        }
    } else {
        let (_, rest) = read_one(ts, Sort::Equals)?;
        read_connected(alloc, name, rest)
    }
}

/// A statement that has no block.
#[tactic(auto, unfolding(crate::specs::inside::Reading::plain_statement_at))]
pub fn read_plain_statement(
    alloc: Global,
    ts: &[Terminal],
) -> Result<(ParamStatement, &[Terminal]), ReadEnd<'_>>
    ensures { GivesNamed (λ names x. (statement_tree names x.0, x.1.now)) result (λ names. plain_statement_at names ts.now) }
{
    let (name, rest) = read_indexed(alloc, ts)?;
    read_named_statement(alloc, name, rest)
}
