//! Wires and registers as cells and assignments.
ghost use Rattle.std.specs.Prelude.{◌≡◌, [], ◌∷◌, ◌++◌, List, IfOk, OnOk};
ghost use Rattle.hw_names.specs.Name.{Text};
ghost use Rattle.net_core.specs.Guard.{GuardTree};
ghost use Rattle.cal_ast.specs.Numbers.{CellHasNumbers};
ghost use Rattle.cal_ast.specs.Tree.{PortName, cell_tree};
ghost use Rattle.cal_lower.specs.inside.Labels.{AreTexts, KeepsLabels, LabelHasNumber, is_register, kind_of, label_text};
ghost use Rattle.cal_lower.specs.inside.Pieces.{Piece, enables_piece, made_by, piece_cell};
ghost use Rattle.cal_lower.specs.inside.Shown.{DriveTree, Shows, ShowsDrive, ShowsGuard, ShowsName, ShowsPieces, ShowsSets, driven, one_when};

use crate::labels::{Labels, Texts, port_of};
use crate::texts::Label;
use cal_ast::{Assign, CalCell, CalPort};
use hw_bits::Memory;
use hw_names::NameId;
use net_core::{Guard, Src};
use std::alloc::Global;

/// What drives a wire or a register: the source where the guard is true, and else 0.
#[derive(Drop)]
pub(crate) struct Drive {
    pub guard: Option<Guard<CalPort>>,
    pub src: Src<CalPort>,
}

/// Wires and registers, each a cell with its assignments.
#[derive(Drop)]
pub(crate) struct Pieces {
    pub cells: Vec<CalCell>,
    pub sets: Vec<Assign>,
}

/// It is driven by 1 where the guard is true.
pub(crate) fn one_when(guard: Guard<CalPort>) -> Drive
    ensures { (names : List Text) (tree : GuardTree PortName) → ShowsGuard names tree guard → ShowsDrive names (one_when tree) result }
{
    Drive {
        guard: Some(guard),
        src: Src::Lit { width: 1, value: 1 },
    }
}

/// Whether this is told a row later, by a register.
fn is_register(label: Label) -> bool
    ensures { result ≡ is_register label }
{
    match label {
        Label::Going(_) => true,
        Label::Starting(_) => true,
        Label::Ended(_) => true,
        Label::Again(_) => true,
        Label::Ends(_) => false,
        Label::Acts(_) => false,
        Label::Done(_) => false,
        Label::Start => false,
        Label::Busy => true,
        Label::Over => true,
    }
}

/// What the cell that tells this is made of.
fn made_by(texts: Texts, label: Label) -> NameId
    ensures { (names : List Text) → AreTexts names texts → ShowsName names (made_by (kind_of label)) result }
{
    if is_register(label) {
        texts.register
    } else {
        texts.wire
    }
}

/// The cell of one bit that tells this.
fn piece_cell(alloc: Global, texts: Texts, label: Label, name: NameId) -> Result<CalCell, Memory>
    ensures { (names : List Text) (text : Text) (tree : DriveTree) → AreTexts names texts → ShowsName names text name
        → IfOk result (Shows CellHasNumbers cell_tree names (piece_cell (driven (kind_of label) text tree))) }
{
    Ok(CalCell {
        name,
        made: made_by(texts, label),
        params: Vec::from_slice(alloc, &[1])?,
        external: false,
    })
}

/// Puts the assignment last by which a register takes what drives it in every row; a wire has none.
fn push_enable(
    texts: Texts,
    label: Label,
    name: NameId,
    sets: &mut Vec<Assign>,
) -> Result<(), Memory>
    ensures { (names : List Text) (text : Text) → AreTexts names texts → ShowsName names text name
        → OnOk result (ShowsSets names sets.old.items (enables_piece (kind_of label) text) sets.new.items) }
{
    if !is_register(label) {
        return Ok(());
    }
    sets.push(Assign {
        dst: port_of(name, texts.enable),
        guard: None,
        src: Src::Lit { width: 1, value: 1 },
    })?;
    Ok(())
}

impl Pieces {
    pub(crate) fn new(alloc: Global) -> Pieces
        ensures { (names : List Text) → ShowsPieces names [] result }
    {
        Pieces {
            cells: Vec::new(alloc),
            sets: Vec::new(alloc),
        }
    }

    /// Puts the wire or the register that tells this last, driven so.
    pub(crate) fn push(
        &mut self,
        alloc: Global,
        labels: &mut Labels,
        label: Label,
        drive: Drive,
    ) -> Result<(), Memory>
        requires number { LabelHasNumber labels.old.names label }
        requires texts { AreTexts labels.old.names labels.old.texts }
        ensures kept { KeepsLabels labels.old labels.new }
        ensures pushed { (pieces : List Piece) (tree : DriveTree) → ShowsPieces labels.old.names pieces self.old → ShowsDrive labels.old.names tree drive
            → OnOk result (ShowsPieces labels.new.names (pieces ++ driven (kind_of label) (label_text labels.old.names label) tree ∷ []) self.new) }
    {
        let name = labels.name(alloc, label)?;
        let texts = labels.texts;
        self.cells.push(piece_cell(alloc, texts, label, name)?)?;
        self.sets.push(Assign {
            dst: port_of(name, texts.input),
            guard: drive.guard,
            src: drive.src,
        })?;
        push_enable(texts, label, name, &mut self.sets)
    }

    /// Puts other pieces last.
    pub(crate) fn append(&mut self, mut others: Pieces) -> Result<(), Memory>
        ensures { (names : List Text) (pieces more : List Piece) → ShowsPieces names pieces self.old → ShowsPieces names more others
            → OnOk result (ShowsPieces names (pieces ++ more) self.new) }
    {
        self.cells.append(&mut others.cells)?;
        self.sets.append(&mut others.sets)?;
        Ok(())
    }
}
