//! What stands around an item: the names, the component, what is before it, and what names mean there.
use crate::earlier::Earlier;
use crate::tables::Tables;
use fil_ast::FilComp;
use hw_names::Names;

/// What stands around the items of a component.
#[derive(Clone, Copy)]
pub struct Around<'a> {
    /// The design's names.
    pub names: &'a Names,
    /// The components before this one.
    pub earlier: &'a Earlier,
    /// The component.
    pub comp: &'a FilComp,
}

/// A place of a component's body.
#[derive(Clone, Copy)]
pub struct Place<'a> {
    /// The design's names.
    pub names: &'a Names,
    /// The components before this one.
    pub earlier: &'a Earlier,
    /// The component.
    pub comp: &'a FilComp,
    /// What names mean before the item.
    pub tables: &'a Tables,
}
