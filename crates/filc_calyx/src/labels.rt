//! What stands in the line of a row for each actor of a component that acts in it.
ghost use Rattle.std.specs.Prelude.{◌≡◌, [], ◌∷◌, ◌++◌, All, IfOk, OnOk, codes, decimal, map};
ghost use Rattle.hw_names.specs.Name.{text_of};
ghost use Rattle.cal_ast.specs.Actors.{actors_of};
ghost use Rattle.cal_ast.specs.Numbers.{ComponentHasNumbers, GroupHasNumbers};
ghost use Rattle.cal_ast.specs.Tree.{Component, component_tree};
ghost use Rattle.cal_walk.specs.Planning.{IsControlOf};
ghost use Rattle.cal_ast.specs.declared.tree.Group.{Group as GroupOf};
ghost use Rattle.cal_walk.specs.declared.planning.Invoke.{Invoke as InvokeOf};
ghost use Rattle.filc_calyx.specs.inside.Scheduling.{label, label_texts};

use cal_ast::Group;
use cal_walk::{Controlled, Invoke};
use hw_bits::Memory;
use hw_names::Names;
use itoa::Buffer;
use std::alloc::Global;

/// The label of an actor: what stands before its name, and its name.
fn make_label(alloc: Global, before: &[u8], name: &[u8]) -> Result<Vec<u8>, Memory>
    ensures { IfOk result (λ label. label.items ≡ before.now ++ name.now) }
{
    let mut label = Vec::from_slice(alloc, before)?;
    label.extend_from_slice(name)?;
    Ok(label)
}

/// Puts the labels of these groups last.
fn push_groups(
    alloc: Global,
    labels: &mut Vec<Vec<u8>>,
    names: &Names,
    groups: &[Group],
) -> Result<(), Memory>
    requires { All (GroupHasNumbers names.now) groups.now }
    ensures { OnOk result (label_texts labels.new.items
        ≡ label_texts labels.old.items ++ map (λ (group : GroupOf). codes " " ++ text_of names.now group.name) groups.now) }
{
    for group in groups {
        let label = make_label(alloc, b" ", names.text(group.name))?;
        labels.push(label)?;
    }
    Ok(())
}

/// Puts the labels of these invokes last.
fn push_invokes(alloc: Global, labels: &mut Vec<Vec<u8>>, invokes: &[Invoke]) -> Result<(), Memory>
    ensures { OnOk result (label_texts labels.new.items
        ≡ label_texts labels.old.items ++ map (λ (invoke : InvokeOf). codes " #" ++ decimal invoke.item) invokes.now) }
{
    let mut digits = Buffer::new();
    for invoke in invokes {
        let label = make_label(alloc, b" #", digits.format(invoke.item).as_bytes())?;
        labels.push(label)?;
    }
    Ok(())
}

/// The labels of a component's actors, in their order.
pub(crate) fn labels_of(
    alloc: Global,
    names: &Names,
    control: &Controlled,
) -> Result<Vec<Vec<u8>>, Memory>
    requires { ComponentHasNumbers names.now control.now.comp.now }
    ensures { (c : Component) → component_tree names.now control.now.comp.now ≡ c → IsControlOf names.now c control.now
        → IfOk result (λ labels. label_texts labels.items ≡ map label (actors_of c)) }
{
    let mut labels = Vec::new(alloc);
    push_groups(alloc, &mut labels, names, &control.comp.groups)?;
    push_invokes(alloc, &mut labels, &control.invokes)?;
    Ok(labels)
}
