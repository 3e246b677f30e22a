//! Names of wires and registers of control, as texts and as numbers.
ghost use Rattle.std.specs.Prelude.{◌≡◌, ◌++◌, Some, slice_get, IfOk};
ghost use Rattle.hw_names.specs.Name.{KeepsTexts};
ghost use Rattle.cal_lower.specs.inside.Labels.{LabelHasNumber, label_text};

use cal_copy::add_name;
use hw_bits::Memory;
use hw_names::{NameId, Names};
use hw_print::numbered;
use std::alloc::Global;

/// What a wire or a register of control tells of a row: the parts of a plan have numbers, and groups have names.
#[derive(Clone, Copy)]
pub(crate) enum Label {
    /// What the part enables has acted in the row before, and goes on.
    Going(u64),
    /// The part starts by its own token.
    Starting(u64),
    /// The part, one of several at once, has ended, and others go on.
    Ended(u64),
    /// The loop is tested again.
    Again(u64),
    /// The part ends.
    Ends(u64),
    /// The group acts.
    Acts(NameId),
    /// The group is done.
    Done(NameId),
    /// Control starts.
    Start,
    /// Control runs, after a row in which it started and before its done row.
    Busy,
    /// The row is the done row of control.
    Over,
}

/// A text with another one after it.
fn joined(alloc: Global, first: &[u8], second: &[u8]) -> Result<Vec<u8>, Memory>
    ensures { IfOk result (λ text. text.items ≡ first.now ++ second.now) }
{
    let mut text = Vec::from_slice(alloc, first)?;
    text.extend_from_slice(second)?;
    Ok(text)
}

/// The name of what tells this.
fn label_text(alloc: Global, names: &Names, label: Label) -> Result<Vec<u8>, Memory>
    requires { LabelHasNumber names.now label }
    ensures { IfOk result (λ text. text.items ≡ label_text names.now label) }
{
    match label {
        Label::Going(part) => numbered(alloc, b"c$goes", part),
        Label::Starting(part) => numbered(alloc, b"c$next", part),
        Label::Ended(part) => numbered(alloc, b"c$past", part),
        Label::Again(part) => numbered(alloc, b"c$turn", part),
        Label::Ends(part) => numbered(alloc, b"c$ends", part),
        Label::Acts(group) => joined(alloc, b"c$acts$", names.text(group)),
        Label::Done(group) => joined(alloc, b"c$done$", names.text(group)),
        Label::Start => Ok(Vec::from_slice(alloc, b"c$start")?),
        Label::Busy => Ok(Vec::from_slice(alloc, b"c$busy")?),
        Label::Over => Ok(Vec::from_slice(alloc, b"c$over")?),
    }
}

/// The number of the name of what tells this, which goes last where it is new.
pub(crate) fn label_name(alloc: Global, names: &mut Names, label: Label) -> Result<NameId, Memory>
    requires { LabelHasNumber names.old label }
    ensures text { IfOk result (λ id. slice_get names.new id.0 ≡ Some (label_text names.old label)) }
    ensures kept { KeepsTexts names.old names.new }
{
    let text = label_text(alloc, names, label)?;
    add_name(names, &text)
}
