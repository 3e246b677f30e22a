//! Statements, from terminals.
ghost use Rattle.std.specs.Prelude.{◌≡◌, [], ◌∷◌, List, map};
ghost use Rattle.hw_names.specs.Name.{Text, text_of};
ghost use Rattle.hw_grammar.specs.declared.sort.Sort.TheVariants as Sort;
ghost use Rattle.hw_grammar.specs.Reading.{Gives, mapped, many};
ghost use Rattle.fil_ast.specs.Tree.{statement_tree};
ghost use Rattle.fil_parse.specs.inside.Reading.{new_at, called_at, connected_at, statement_at, body_at};

use crate::value::{params_or_none, read_call, read_value};
use fil_ast::Stmt;
use hw_grammar::{ReadEnd, Sort, Terminal, read_name, read_one, starts};
use hw_names::NameId;
use std::alloc::Global;

/// What follows `NAME ":=" "new"`: an instance, and its invocation where there is one.
#[tactic(auto, unfolding(crate::specs::inside::Reading::new_at))]
fn read_new(
    alloc: Global,
    name: NameId,
    ts: &[Terminal],
) -> Result<(Stmt, &[Terminal]), ReadEnd<'_>>
    ghost names: { List Text }
    ensures { Gives (λ x. (statement_tree names x.0, x.1.now)) result (mapped (λ f. f (text_of names name)) (new_at names) ts.now) }
{
    let (comp, rest) = read_name(ts)?;
    let (params, rest) = params_or_none(alloc, rest)?;
    if starts(rest, Sort::LeftAngle) {
        let ((at, args), rest) = read_call(alloc, rest)?;
        let (_, rest) = read_one(rest, Sort::Semicolon)?;
        let stmt = Stmt::Both {
            name,
            comp,
            params,
            at,
            args,
        };
        Ok((stmt, rest))
    } else {
        let (_, rest) = read_one(rest, Sort::Semicolon)?;
        Ok((Stmt::New { name, comp, params }, rest))
    }
}

/// What follows `NAME ":="` where no `new` is: an invocation.
#[tactic(auto, unfolding(crate::specs::inside::Reading::called_at))]
fn read_called(
    alloc: Global,
    name: NameId,
    ts: &[Terminal],
) -> Result<(Stmt, &[Terminal]), ReadEnd<'_>>
    ghost names: { List Text }
    ensures { Gives (λ x. (statement_tree names x.0, x.1.now)) result (mapped (λ f. f (text_of names name)) (called_at names) ts.now) }
{
    let (inst, rest) = read_name(ts)?;
    let ((at, args), rest) = read_call(alloc, rest)?;
    let (_, rest) = read_one(rest, Sort::Semicolon)?;
    let stmt = Stmt::Call {
        name,
        inst,
        at,
        args,
    };
    Ok((stmt, rest))
}

/// What follows `NAME "="`: a connection.
#[tactic(auto, unfolding(crate::specs::inside::Reading::connected_at))]
fn read_connected(dst: NameId, ts: &[Terminal]) -> Result<(Stmt, &[Terminal]), ReadEnd<'_>>
    ghost names: { List Text }
    ensures { Gives (λ x. (statement_tree names x.0, x.1.now)) result (mapped (λ f. f (text_of names dst)) (connected_at names) ts.now) }
{
    let (value, rest) = read_value(ts)?;
    let (_, rest) = read_one(rest, Sort::Semicolon)?;
    Ok((Stmt::Set { dst, value }, rest))
}

/// A statement.
#[tactic(auto, unfolding(crate::specs::inside::Reading::statement_at))]
fn read_statement(alloc: Global, ts: &[Terminal]) -> Result<(Stmt, &[Terminal]), ReadEnd<'_>>
    ghost names: { List Text }
    ensures { Gives (λ x. (statement_tree names x.0, x.1.now)) result (statement_at names ts.now) }
{
    let (name, rest) = read_name(ts)?;
    if starts(rest, Sort::ColonEquals) {
        let (_, rest) = read_one(rest, Sort::ColonEquals)?;
        if starts(rest, Sort::New) {
            let (_, rest) = read_one(rest, Sort::New)?;
            read_new(alloc, name, rest)
        } else {
            read_called(alloc, name, rest)
        }
    } else {
        let (_, rest) = read_one(rest, Sort::Equals)?;
        read_connected(name, rest)
    }
}

/// `{stmt}`
fn read_statements(alloc: Global, ts: &[Terminal]) -> Result<(Vec<Stmt>, &[Terminal]), ReadEnd<'_>>
    ghost names: { List Text }
    ensures { Gives (λ x. (map (statement_tree names) x.0.items, x.1.now)) result (many (Sort.Name ∷ []) (statement_at names) ts.now) }
{
    let mut all = Vec::new(alloc);
    let mut rest = ts;
    // Each round takes a terminal at least.
    for _ in 0..ts.len() {
        if !starts(rest, Sort::Name) {
            return Ok((all, rest));
        }
        let (next, after) = read_statement(alloc, rest)?;
        all.push(next)?;
        rest = after;
    }
    if starts(rest, Sort::Name) {
        Err(ReadEnd::Refused(rest))
    } else {
        Ok((all, rest))
    }
}

/// `"{" {stmt} "}"`
#[tactic(auto, unfolding(crate::specs::inside::Reading::body_at))]
pub fn read_body(alloc: Global, ts: &[Terminal]) -> Result<(Vec<Stmt>, &[Terminal]), ReadEnd<'_>>
    ghost names: { List Text }
    ensures { Gives (λ x. (map (statement_tree names) x.0.items, x.1.now)) result (body_at names ts.now) }
{
    let (_, rest) = read_one(ts, Sort::LeftBrace)?;
    let (body, rest) = read_statements(alloc, rest)?;
    let (_, rest) = read_one(rest, Sort::RightBrace)?;
    Ok((body, rest))
}
