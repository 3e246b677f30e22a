//! The names of a design that is lowered: those of the source, with the same numbers, and then further ones.
ghost use Rattle.std.specs.Prelude.{◌≡◌, IfOk, Some, slice_get};
ghost use Rattle.hw_names.specs.Name.{KeepsTexts};
ghost use Rattle.cal_ast.specs.Tree.{own};
ghost use Rattle.cal_lower.specs.inside.Labels.{AreTexts, KeepsLabels, LabelHasNumber, label_text};
ghost use Rattle.cal_lower.specs.inside.Pieces.{shown};
ghost use Rattle.cal_lower.specs.inside.Shown.{ShowsPort};

use crate::texts::{Label, label_name};
use cal_ast::CalPort;
use cal_copy::{add_name, copy_names};
use hw_bits::Memory;
use hw_names::{NameId, Names};
use std::alloc::Global;

/// The texts that all wires and registers have in common, by their numbers.
#[derive(Clone, Copy)]
pub(crate) struct Texts {
    pub wire: NameId,
    pub register: NameId,
    pub input: NameId,
    pub enable: NameId,
    pub output: NameId,
}

/// Names so far, with those common texts.
#[derive(Drop)]
pub(crate) struct Labels {
    pub names: Names,
    pub texts: Texts,
}

/// A port of a cell.
pub(crate) fn port_of(cell: NameId, port: NameId) -> CalPort
    ensures { result ≡ record { cell = Some cell; port = port } }
{
    CalPort {
        cell: Some(cell),
        port,
    }
}

/// The numbers of the common texts, which are added where they are new.
fn common_texts(names: &mut Names) -> Result<Texts, Memory>
    ensures texts { IfOk result (AreTexts names.new) }
    ensures kept { KeepsTexts names.old names.new }
{
    let wire = add_name(names, b"std_wire")?;
    let register = add_name(names, b"std_reg")?;
    let input = add_name(names, b"in")?;
    let enable = add_name(names, b"write_en")?;
    let output = add_name(names, b"out")?;
    Ok(Texts {
        wire,
        register,
        input,
        enable,
        output,
    })
}

impl Labels {
    /// The names of the source, with the same numbers, and the common texts.
    pub(crate) fn make(alloc: Global, source: &Names) -> Result<Labels, Memory>
        ensures kept { IfOk result (λ labels. KeepsTexts source.now labels.names) }
        ensures texts { IfOk result (λ labels. AreTexts labels.names labels.texts) }
    {
        let mut names = copy_names(alloc, source)?;
        let texts = common_texts(&mut names)?;
        Ok(Labels { names, texts })
    }

    /// The name of what tells this.
    pub(crate) fn name(&mut self, alloc: Global, label: Label) -> Result<NameId, Memory>
        requires { LabelHasNumber self.old.names label }
        ensures text { IfOk result (λ id. slice_get self.new.names id.0 ≡ Some (label_text self.old.names label)) }
        ensures kept { KeepsLabels self.old self.new }
    {
        label_name(alloc, &mut self.names, label)
    }

    /// The port that is 1 where this is so.
    pub(crate) fn port(&mut self, alloc: Global, label: Label) -> Result<CalPort, Memory>
        requires number { LabelHasNumber self.old.names label }
        requires texts { AreTexts self.old.names self.old.texts }
        ensures port { IfOk result (ShowsPort self.new.names (shown (label_text self.old.names label))) }
        ensures kept { KeepsLabels self.old self.new }
    {
        let name = self.name(alloc, label)?;
        Ok(port_of(name, self.texts.output))
    }

    /// The component's own port of this name.
    pub(crate) fn own(&mut self, port: &[u8]) -> Result<CalPort, Memory>
        ensures port { IfOk result (ShowsPort self.new.names (own port.now)) }
        ensures kept { KeepsLabels self.old self.new }
    {
        let port = add_name(&mut self.names, port)?;
        Ok(CalPort { cell: None, port })
    }
}
