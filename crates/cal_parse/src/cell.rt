//! Cells, from terminals.
ghost use Rattle.std.specs.Prelude.{◌≡◌, [], ◌∷◌, List, map};
ghost use Rattle.cal_ast.specs.Tree.{cell_tree};
ghost use Rattle.cal_parse.specs.inside.Reading.{pin_set, more_number_at, listed_numbers_at, parameters_at, cell_at, cells_at};
ghost use Rattle.hw_grammar.specs.declared.sort.Sort.TheVariants as Sort;
ghost use Rattle.hw_grammar.specs.Reading.{Gives, GivesNamed, with_front, many};

use crate::attribute::{angle_or_none, read_attributes};
use crate::pin::starts_named;
use cal_ast::CalCell;
use hw_grammar::{ReadEnd, Sort, Terminal, read_name, read_number, read_one, starts};
use std::alloc::Global;

/// `"," NUMBER`
#[tactic(auto, unfolding(crate::specs::inside::Reading::more_number_at))]
fn read_more_number(ts: &[Terminal]) -> Result<(u128, &[Terminal]), ReadEnd<'_>>
    ensures { Gives (λ x. (x.0, x.1.now)) result (more_number_at ts.now) }
{
    let (_, rest) = read_one(ts, Sort::Comma)?;
    let (number, rest) = read_number(rest)?;
    Ok((number, rest))
}

/// The numbers of `front`, and those that follow, each after a comma.
fn more_numbers<'a>(
    front: Vec<u128>,
    ts: &'a [Terminal],
) -> Result<(Vec<u128>, &'a [Terminal]), ReadEnd<'a>>
    ensures { Gives (λ x. (x.0.items, x.1.now)) result
        (with_front front.items (many (Sort.Comma ∷ []) more_number_at ts.now)) }
{
    let mut all = front;
    let mut rest = ts;
    // Each round takes a terminal at least.
    for _ in 0..ts.len() {
        if !starts(rest, Sort::Comma) {
            return Ok((all, rest));
        }
        let (next, after) = read_more_number(rest)?;
        all.push(next)?;
        rest = after;
    }
    if starts(rest, Sort::Comma) {
        Err(ReadEnd::Refused(rest))
    } else {
        Ok((all, rest))
    }
}

/// `[NUMBER {"," NUMBER}]`
#[tactic(auto, unfolding(crate::specs::inside::Reading::listed_numbers_at, crate::specs::inside::Reading::more_number_at))]
fn listed_numbers(alloc: Global, ts: &[Terminal]) -> Result<(Vec<u128>, &[Terminal]), ReadEnd<'_>>
    ensures { Gives (λ x. (x.0.items, x.1.now)) result (listed_numbers_at ts.now) }
{
    let mut all = Vec::new(alloc);
    if starts(ts, Sort::Number) {
        let (first, rest) = read_number(ts)?;
        all.push(first)?;
        more_numbers(all, rest)
    } else {
        Ok((all, ts))
    }
}

/// `"(" [NUMBER {"," NUMBER}] ")"`
#[tactic(auto, unfolding(crate::specs::inside::Reading::parameters_at))]
fn read_parameters(alloc: Global, ts: &[Terminal]) -> Result<(Vec<u128>, &[Terminal]), ReadEnd<'_>>
    ensures { Gives (λ x. (x.0.items, x.1.now)) result (parameters_at ts.now) }
{
    let (_, rest) = read_one(ts, Sort::LeftParen)?;
    let (numbers, rest) = listed_numbers(alloc, rest)?;
    let (_, rest) = read_one(rest, Sort::RightParen)?;
    Ok((numbers, rest))
}

/// A cell.
#[tactic(auto, unfolding(crate::specs::inside::Reading::cell_at))]
fn read_cell(alloc: Global, ts: &[Terminal]) -> Result<(CalCell, &[Terminal]), ReadEnd<'_>>
    ensures { GivesNamed (λ names x. (cell_tree names x.0, x.1.now)) result (λ names. cell_at names ts.now) }
{
    let (marked, rest) = read_attributes(ts)?;
    let (name, rest) = read_name(rest)?;
    let (angled, rest) = angle_or_none(rest)?;
    let (_, rest) = read_one(rest, Sort::Equals)?;
    let (made, rest) = read_name(rest)?;
    let (params, rest) = read_parameters(alloc, rest)?;
    let (_, rest) = read_one(rest, Sort::Semicolon)?;
    let cell = CalCell {
        name,
        made,
        params,
        external: marked | angled,
    };
    Ok((cell, rest))
}

/// `{cell}`
fn read_cell_list(
    alloc: Global,
    ts: &[Terminal],
) -> Result<(Vec<CalCell>, &[Terminal]), ReadEnd<'_>>
    ensures { GivesNamed (λ names x. (map (cell_tree names) x.0.items, x.1.now)) result (λ names. many pin_set (cell_at names) ts.now) }
{
    let mut all = Vec::new(alloc);
    let mut rest = ts;
    // Each round takes a terminal at least.
    for _ in 0..ts.len() {
        if !starts_named(rest) {
            return Ok((all, rest));
        }
        let (next, after) = read_cell(alloc, rest)?;
        all.push(next)?;
        rest = after;
    }
    if starts_named(rest) {
        Err(ReadEnd::Refused(rest))
    } else {
        Ok((all, rest))
    }
}

/// `"cells" "{" {cell} "}"`
#[tactic(auto, unfolding(crate::specs::inside::Reading::cells_at))]
pub fn read_cells(
    alloc: Global,
    ts: &[Terminal],
) -> Result<(Vec<CalCell>, &[Terminal]), ReadEnd<'_>>
    ensures { GivesNamed (λ names x. (map (cell_tree names) x.0.items, x.1.now)) result (λ names. cells_at names ts.now) }
{
    let (_, rest) = read_one(ts, Sort::Cells)?;
    let (_, rest) = read_one(rest, Sort::LeftBrace)?;
    let (cells, rest) = read_cell_list(alloc, rest)?;
    let (_, rest) = read_one(rest, Sort::RightBrace)?;
    Ok((cells, rest))
}
