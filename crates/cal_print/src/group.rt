//! Assignments and groups, each on lines of its own.
ghost use Rattle.std.specs.Prelude.{◌≡◌, ◌++◌, flat_map, codes, All, OnOk};
ghost use Rattle.cal_ast.specs.Numbers.{SetHasNumbers, DoneHasNumbers, GroupHasNumbers};
ghost use Rattle.cal_ast.specs.Tree.{assignment_tree, done_tree, group_tree};
ghost use Rattle.cal_print.specs.Layout.{line_text, assignment_text, done_text, group_head, group_text};

use crate::guard::put_when;
use crate::port::{put_port, put_source};
use cal_ast::{Assign, DoneSet, Group};
use hw_bits::Memory;
use hw_names::Names;
use hw_print::{put, put_if, put_name};

fn put_assignment(out: &mut Vec<u8>, names: &Names, set: &Assign) -> Result<(), Memory>
    requires { SetHasNumbers names.now set.now }
    ensures { OnOk result (out.new.items ≡ out.old.items ++ assignment_text (assignment_tree names.now set.now)) }
{
    put_port(out, names, set.dst)?;
    put(out, b" = ")?;
    put_when(out, names, &set.guard)?;
    put_source(out, names, set.src)?;
    put(out, b";")
}

fn put_done(out: &mut Vec<u8>, names: &Names, done: &DoneSet) -> Result<(), Memory>
    requires { DoneHasNumbers names.now done.now }
    ensures { OnOk result (out.new.items ≡ out.old.items ++ done_text (done_tree names.now done.now)) }
{
    put_name(out, names, done.of)?;
    put(out, b"[done] = ")?;
    put_when(out, names, &done.guard)?;
    put_source(out, names, done.src)?;
    put(out, b";")
}

pub(crate) fn put_assignments(
    out: &mut Vec<u8>,
    names: &Names,
    margin: &[u8],
    sets: &[Assign],
) -> Result<(), Memory>
    requires { All (SetHasNumbers names.now) sets.now }
    ensures { OnOk result (out.new.items ≡ out.old.items ++ flat_map (λ a. line_text margin.now (assignment_text (assignment_tree names.now a))) sets.now) }
{
    for set in sets {
        put(out, margin)?;
        put_assignment(out, names, set)?;
        put(out, b"\n")?;
    }
    Ok(())
}

/// The done lines of a group.
fn put_dones(out: &mut Vec<u8>, names: &Names, dones: &[DoneSet]) -> Result<(), Memory>
    requires { All (DoneHasNumbers names.now) dones.now }
    ensures { OnOk result (out.new.items ≡ out.old.items ++ flat_map (λ d. line_text (codes "      ") (done_text (done_tree names.now d))) dones.now) }
{
    for done in dones {
        put(out, b"      ")?;
        put_done(out, names, done)?;
        put(out, b"\n")?;
    }
    Ok(())
}

/// What a group begins with.
fn put_head(out: &mut Vec<u8>, names: &Names, group: &Group) -> Result<(), Memory>
    requires { GroupHasNumbers names.now group.now }
    ensures { OnOk result (out.new.items ≡ out.old.items ++ group_head (group_tree names.now group.now)) }
{
    put_if(out, group.comb, b"comb ")?;
    put(out, b"group ")?;
    put_name(out, names, group.name)
}

fn put_group(out: &mut Vec<u8>, names: &Names, group: &Group) -> Result<(), Memory>
    requires { GroupHasNumbers names.now group.now }
    ensures { OnOk result (out.new.items ≡ out.old.items ++ group_text (codes "    ") (group_tree names.now group.now)) }
{
    put(out, b"    ")?;
    put_head(out, names, group)?;
    put(out, b" {\n")?;
    put_assignments(out, names, b"      ", &group.sets)?;
    put_dones(out, names, &group.dones)?;
    put(out, b"    }\n")
}

pub(crate) fn put_groups(out: &mut Vec<u8>, names: &Names, groups: &[Group]) -> Result<(), Memory>
    requires { All (GroupHasNumbers names.now) groups.now }
    ensures { OnOk result (out.new.items ≡ out.old.items ++ flat_map (λ g. group_text (codes "    ") (group_tree names.now g)) groups.now) }
{
    for group in groups {
        put_group(out, names, group)?;
    }
    Ok(())
}
