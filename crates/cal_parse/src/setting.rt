//! Assignments, from terminals.
ghost use Rattle.std.specs.Prelude.{◌≡◌, [], ◌∷◌, List, Option, Some, None};
ghost use Rattle.cal_ast.specs.Tree.{port_tree, assignment_tree};
ghost use Rattle.cal_parse.specs.inside.Reading.{asked_by, behind_by, setting_at, assignment_at};
ghost use Rattle.net_core.specs.Guard.{source_tree, guard_tree, guard_option};
ghost use Rattle.hw_grammar.specs.Reading.{GivesNamed};

use crate::guard::read_guard;
use crate::port::{read_port, read_source};
use cal_ast::{Assign, CalPort};
use hw_grammar::{ReadEnd, Sort, Terminal, read_one, starts, starts_any};
use net_core::{Guard, Src};
use std::alloc::Global;

/// What an assignment gives its destination, and when.
#[derive(Drop)]
pub struct Setting {
    pub guard: Option<Guard<CalPort>>,
    pub src: Src<CalPort>,
}

/// `"?" source ";"` behind a guard.
#[tactic(auto, unfolding(crate::specs::inside::Reading::asked_by))]
fn read_asked(guard: Guard<CalPort>, ts: &[Terminal]) -> Result<(Setting, &[Terminal]), ReadEnd<'_>>
    ensures { GivesNamed (λ names x. ((guard_option (port_tree names) x.0.guard, source_tree (port_tree names) x.0.src), x.1.now)) result
        (λ names. asked_by names (guard_tree (port_tree names) guard) ts.now) }
{
    let (_, rest) = read_one(ts, Sort::Question)?;
    let (src, rest) = read_source(rest)?;
    let (_, rest) = read_one(rest, Sort::Semicolon)?;
    let guard = Some(guard);
    Ok((Setting { guard, src }, rest))
}

/// What follows a guard, which may have been the source of an assignment where it is a source alone.
fn read_behind(
    guard: Guard<CalPort>,
    ts: &[Terminal],
) -> Result<(Setting, &[Terminal]), ReadEnd<'_>>
    ensures { GivesNamed (λ names x. ((guard_option (port_tree names) x.0.guard, source_tree (port_tree names) x.0.src), x.1.now)) result
        (λ names. behind_by names (guard_tree (port_tree names) guard) ts.now) }
{
    if let Guard::Read(src) = &guard {
        if !starts(ts, Sort::Question) {
            let (_, rest) = read_one(ts, Sort::Semicolon)?;
            let setting = Setting {
                guard: None,
                src: **src,
            };
            return Ok((setting, rest));
        }
    }
    read_asked(guard, ts)
}

/// `[guard "?"] source ";"`
pub fn read_setting(alloc: Global, ts: &[Terminal]) -> Result<(Setting, &[Terminal]), ReadEnd<'_>>
    ensures { GivesNamed (λ names x. ((guard_option (port_tree names) x.0.guard, source_tree (port_tree names) x.0.src), x.1.now)) result
        (λ names. setting_at names ts.now) }
{
    let (guard, rest) = read_guard(alloc, ts.len(), ts)?;
    if starts_any(ts, &[Sort::Not, Sort::LeftParen]) {
        read_asked(guard, rest)
    } else {
        read_behind(guard, rest)
    }
}

/// `port "=" [guard "?"] source ";"`
#[tactic(auto, unfolding(crate::specs::inside::Reading::assignment_at))]
pub fn read_assignment(alloc: Global, ts: &[Terminal]) -> Result<(Assign, &[Terminal]), ReadEnd<'_>>
    ensures { GivesNamed (λ names x. (assignment_tree names x.0, x.1.now)) result (λ names. assignment_at names ts.now) }
{
    let (dst, rest) = read_port(ts)?;
    let (_, rest) = read_one(rest, Sort::Equals)?;
    let (setting, rest) = read_setting(alloc, rest)?;
    let Setting { guard, src } = setting;
    Ok((Assign { dst, guard, src }, rest))
}
