//! Groups and what else stands in wires, from terminals.
ghost use Rattle.std.specs.Prelude.{◌≡◌, [], ◌∷◌, ◌++◌, List, map, option_map, IfOk};
ghost use Rattle.cal_ast.specs.Tree.{port_tree, assignment_tree, done_tree, group_tree};
ghost use Rattle.cal_parse.specs.Grammar.{port_from, assignments_in, dones_in, groups_in, sets_in};
ghost use Rattle.cal_parse.specs.inside.Lines.{line_tree, wire_tree};
ghost use Rattle.cal_parse.specs.inside.Reading.{pin_set, wire_set, done_mark_at, dotted_at, named_line_at, line_at, lines_at, maybe_comb_at, group_at, wire_at, wire_list_at, wires_at};
ghost use Rattle.hw_grammar.specs.declared.sort.Sort.TheVariants as Sort;
ghost use Rattle.hw_grammar.specs.Reading.{Gives, GivesNamed, mapped};
ghost use Rattle.hw_grammar.specs.Sort.{has};
ghost use Rattle.hw_names.specs.Name.{Text, text_of};

use crate::attribute::{angle_or_none, read_attributes};
use crate::pin::starts_named;
use crate::setting::{Setting, read_assignment, read_setting};
use cal_ast::{Assign, CalPort, DoneSet, Group};
use hw_grammar::{
    ReadEnd, Sort, Special, Terminal, read_name, read_one, read_special, starts, starts_any,
};
use hw_names::NameId;
use std::alloc::{AllocError, Global};

/// A line of a group.
#[derive(Drop)]
pub enum GroupLine {
    Set(Assign),
    Done(DoneSet),
}

/// The assignments and the done lines of a group.
#[derive(Drop)]
pub struct GroupLines {
    pub sets: Vec<Assign>,
    pub dones: Vec<DoneSet>,
}

/// The groups and the continuous assignments of a component.
#[derive(Drop)]
pub struct ComponentWires {
    pub groups: Vec<Group>,
    pub sets: Vec<Assign>,
}

/// `"[" "done" "]"`: what follows it.
#[tactic(auto, unfolding(crate::specs::inside::Reading::done_mark_at))]
fn after_done_mark(ts: &[Terminal]) -> Result<&[Terminal], ReadEnd<'_>>
    ensures { Gives (λ x. (tt, x.now)) result (done_mark_at ts.now) }
{
    let (_, rest) = read_one(ts, Sort::LeftBracket)?;
    let (_, rest) = read_special(rest, Special::Done)?;
    let (_, rest) = read_one(rest, Sort::RightBracket)?;
    Ok(rest)
}

/// `["." NAME]`
#[tactic(auto, unfolding(crate::specs::inside::Reading::dotted_at))]
fn dotted_or_none(ts: &[Terminal]) -> Result<(Option<NameId>, &[Terminal]), ReadEnd<'_>>
    ensures { GivesNamed (λ names x. (option_map (text_of names) x.0, x.1.now)) result (λ names. dotted_at names ts.now) }
{
    if starts(ts, Sort::Dot) {
        let (_, rest) = read_one(ts, Sort::Dot)?;
        let (port, rest) = read_name(rest)?;
        Ok((Some(port), rest))
    } else {
        Ok((None, ts))
    }
}

/// The port of a name alone, or of a name before a dot and one after it.
fn port_of(name: NameId, dotted: Option<NameId>) -> CalPort
    ensures { (names : List Text) → port_tree names result ≡ port_from (text_of names name, option_map (text_of names) dotted) }
{
    match dotted {
        Some(port) => CalPort {
            cell: Some(name),
            port,
        },
        None => CalPort {
            cell: None,
            port: name,
        },
    }
}

/// What follows the name of a line: a done line, or an assignment.
#[tactic(auto, unfolding(crate::specs::inside::Reading::named_line_at))]
fn read_named_line(
    alloc: Global,
    name: NameId,
    ts: &[Terminal],
) -> Result<(GroupLine, &[Terminal]), ReadEnd<'_>>
    ensures { GivesNamed (λ names x. (line_tree names x.0, x.1.now)) result (λ names. mapped (λ f. f (text_of names name)) (named_line_at names) ts.now) }
{
    if starts(ts, Sort::LeftBracket) {
        let rest = after_done_mark(ts)?;
        let (_, rest) = read_one(rest, Sort::Equals)?;
        let (setting, rest) = read_setting(alloc, rest)?;
        let Setting { guard, src } = setting;
        let done = DoneSet {
            of: name,
            guard,
            src,
        };
        Ok((GroupLine::Done(done), rest))
    } else {
        let (dotted, rest) = dotted_or_none(ts)?;
        let dst = port_of(name, dotted);
        let (_, rest) = read_one(rest, Sort::Equals)?;
        let (setting, rest) = read_setting(alloc, rest)?;
        let Setting { guard, src } = setting;
        Ok((GroupLine::Set(Assign { dst, guard, src }), rest))
    }
}

impl GroupLines {
    /// One line more, at the end of its list.
    fn add(&mut self, line: GroupLine) -> Result<(), AllocError>
        ensures { IfOk result (λ done. (names : List Text) →
            (map (assignment_tree names) self.new.sets.items ≡ map (assignment_tree names) self.old.sets.items ++ assignments_in (line_tree names line ∷ []))
            × (map (done_tree names) self.new.dones.items ≡ map (done_tree names) self.old.dones.items ++ dones_in (line_tree names line ∷ []))) }
    {
        match line {
            GroupLine::Set(set) => {
                self.sets.push(set)?;
                Ok(())
            }
            GroupLine::Done(done) => {
                self.dones.push(done)?;
                Ok(())
            }
        }
    }
}

/// A line of a group, with its attributes, which are dropped.
#[tactic(auto, unfolding(crate::specs::inside::Reading::line_at))]
fn read_line(alloc: Global, ts: &[Terminal]) -> Result<(GroupLine, &[Terminal]), ReadEnd<'_>>
    ensures { GivesNamed (λ names x. (line_tree names x.0, x.1.now)) result (λ names. line_at names ts.now) }
{
    let (_, rest) = read_attributes(ts)?;
    let (name, rest) = read_name(rest)?;
    read_named_line(alloc, name, rest)
}

/// `{attrs (assign | done)}`
fn read_lines(alloc: Global, ts: &[Terminal]) -> Result<(GroupLines, &[Terminal]), ReadEnd<'_>>
    ensures { GivesNamed (λ names x. ((map (assignment_tree names) x.0.sets.items, map (done_tree names) x.0.dones.items), x.1.now)) result (λ names. lines_at names ts.now) }
{
    let mut lines = GroupLines {
        sets: Vec::new(alloc),
        dones: Vec::new(alloc),
    };
    let mut rest = ts;
    // Each round takes a terminal at least.
    for _ in 0..ts.len() {
        if !starts_named(rest) {
            return Ok((lines, rest));
        }
        let (next, after) = read_line(alloc, rest)?;
        lines.add(next)?;
        rest = after;
    }
    if starts_named(rest) {
        Err(ReadEnd::Refused(rest))
    } else {
        Ok((lines, rest))
    }
}

/// `["comb"]`
#[tactic(auto, unfolding(crate::specs::inside::Reading::maybe_comb_at))]
fn comb_or_none(ts: &[Terminal]) -> Result<(bool, &[Terminal]), ReadEnd<'_>>
    ensures { Gives (λ x. (x.0, x.1.now)) result (maybe_comb_at ts.now) }
{
    if starts(ts, Sort::Comb) {
        let (_, rest) = read_one(ts, Sort::Comb)?;
        Ok((true, rest))
    } else {
        Ok((false, ts))
    }
}

/// A group without its attributes.
#[tactic(auto, unfolding(crate::specs::inside::Reading::group_at))]
fn read_group(alloc: Global, ts: &[Terminal]) -> Result<(Group, &[Terminal]), ReadEnd<'_>>
    ensures { GivesNamed (λ names x. (group_tree names x.0, x.1.now)) result (λ names. group_at names ts.now) }
{
    let (comb, rest) = comb_or_none(ts)?;
    let (_, rest) = read_one(rest, Sort::Group)?;
    let (name, rest) = read_name(rest)?;
    let (_, rest) = angle_or_none(rest)?;
    let (_, rest) = read_one(rest, Sort::LeftBrace)?;
    let (lines, rest) = read_lines(alloc, rest)?;
    let (_, rest) = read_one(rest, Sort::RightBrace)?;
    let GroupLines { sets, dones } = lines;
    let group = Group {
        name,
        comb,
        sets,
        dones,
    };
    Ok((group, rest))
}

/// Whether a group or an assignment starts here.
fn starts_wire(ts: &[Terminal]) -> bool
    ensures { result ≡ has wire_set ts.now }
{
    starts_any(ts, &[Sort::At, Sort::Comb, Sort::Group, Sort::Name])
}

/// What stands in the wires of a component.
#[derive(Drop)]
pub enum Wire {
    Group(Group),
    Set(Assign),
}

impl ComponentWires {
    /// One group or assignment more, at the end of its list.
    fn add(&mut self, wire: Wire) -> Result<(), AllocError>
        ensures { IfOk result (λ done. (names : List Text) →
            (map (group_tree names) self.new.groups.items ≡ map (group_tree names) self.old.groups.items ++ groups_in (wire_tree names wire ∷ []))
            × (map (assignment_tree names) self.new.sets.items ≡ map (assignment_tree names) self.old.sets.items ++ sets_in (wire_tree names wire ∷ []))) }
    {
        match wire {
            Wire::Group(group) => {
                self.groups.push(group)?;
                Ok(())
            }
            Wire::Set(set) => {
                self.sets.push(set)?;
                Ok(())
            }
        }
    }
}

/// A group or an assignment, with its attributes, which are dropped.
#[tactic(auto, unfolding(crate::specs::inside::Reading::wire_at))]
fn read_wire(alloc: Global, ts: &[Terminal]) -> Result<(Wire, &[Terminal]), ReadEnd<'_>>
    ensures { GivesNamed (λ names x. (wire_tree names x.0, x.1.now)) result (λ names. wire_at names ts.now) }
{
    let (_, rest) = read_attributes(ts)?;
    if starts_any(rest, &[Sort::Comb, Sort::Group]) {
        let (group, rest) = read_group(alloc, rest)?;
        Ok((Wire::Group(group), rest))
    } else {
        let (set, rest) = read_assignment(alloc, rest)?;
        Ok((Wire::Set(set), rest))
    }
}

/// `{attrs (group | assign)}`
fn read_wire_list(
    alloc: Global,
    ts: &[Terminal],
) -> Result<(ComponentWires, &[Terminal]), ReadEnd<'_>>
    ensures { GivesNamed (λ names x. ((map (group_tree names) x.0.groups.items, map (assignment_tree names) x.0.sets.items), x.1.now)) result (λ names. wire_list_at names ts.now) }
{
    let mut wires = ComponentWires {
        groups: Vec::new(alloc),
        sets: Vec::new(alloc),
    };
    let mut rest = ts;
    // Each round takes a terminal at least.
    for _ in 0..ts.len() {
        if !starts_wire(rest) {
            return Ok((wires, rest));
        }
        let (next, after) = read_wire(alloc, rest)?;
        wires.add(next)?;
        rest = after;
    }
    if starts_wire(rest) {
        Err(ReadEnd::Refused(rest))
    } else {
        Ok((wires, rest))
    }
}

/// `"wires" "{" {attrs (group | assign)} "}"`
#[tactic(auto, unfolding(crate::specs::inside::Reading::wires_at))]
pub fn read_wires(
    alloc: Global,
    ts: &[Terminal],
) -> Result<(ComponentWires, &[Terminal]), ReadEnd<'_>>
    ensures { GivesNamed (λ names x. ((map (group_tree names) x.0.groups.items, map (assignment_tree names) x.0.sets.items), x.1.now)) result (λ names. wires_at names ts.now) }
{
    let (_, rest) = read_one(ts, Sort::Wires)?;
    let (_, rest) = read_one(rest, Sort::LeftBrace)?;
    let (wires, rest) = read_wire_list(alloc, rest)?;
    let (_, rest) = read_one(rest, Sort::RightBrace)?;
    Ok((wires, rest))
}
