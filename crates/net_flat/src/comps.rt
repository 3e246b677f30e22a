//! The components of a design by their names.
ghost use Rattle.std.specs.Prelude.{◌≡◌, true, false, is_some, IfOk, IfSome, option_map};
ghost use Rattle.hw_prims.specs.Table.{is_primitive};
ghost use Rattle.cal_ast.specs.Numbers.{HasNumbers, CellHasNumbers, ComponentHasNumbers};
ghost use Rattle.cal_ast.specs.Ports.{part_of};
ghost use Rattle.cal_ast.specs.Tree.{cell_tree, component_tree, design_of};
ghost use Rattle.net_flat.specs.inside.Placed.{HasComps};

use cal_ast::{CalCell, CalComp, CalDesign};
use hw_bits::Memory;
use hw_prims::{Prim, PrimEnd};
use std::alloc::Global;

/// For each name the first component that has it, if one does.
#[derive(Drop)]
pub(crate) struct Comps<'a> {
    by_name: Vec<Option<&'a CalComp>>,
}

/// Whether the table of primitives has the name.
pub(crate) fn is_primitive(name: &[u8]) -> bool
    ensures { result ≡ is_primitive name.now }
{
    match Prim::make(name, &[]) {
        Err(PrimEnd::UnknownPrim) => false,
        _ => true,
    }
}

impl<'a> Comps<'a> {
    pub(crate) fn new(alloc: Global, design: &'a CalDesign) -> Result<Comps<'a>, Memory>
        requires { HasNumbers design.now }
        ensures { IfOk result (HasComps design.now) }
    {
        let mut by_name: Vec<Option<&'a CalComp>> = vec![in alloc; None; design.names.len()]?;
        for comp in &design.comps {
            let place = comp.name.0 as usize;
            if by_name[place].is_none() {
                by_name[place] = Some(comp);
            }
        }
        Ok(Comps { by_name })
    }

    /// The component that a cell is made of; none where it is made of a primitive.
    pub(crate) fn part(&self, design: &CalDesign, cell: &CalCell) -> Option<&'a CalComp>
        requires comps { HasComps design.now self.now }
        requires cell { CellHasNumbers design.now.names cell.now }
        ensures part { option_map (λ c. component_tree design.now.names c.now) result ≡ part_of (design_of design.now) (cell_tree design.now.names cell.now) }
        ensures numbers { IfSome result (λ c. ComponentHasNumbers design.now.names c.now) }
    {
        if is_primitive(design.names.text(cell.made)) {
            return None;
        }
        self.by_name[cell.made.0 as usize]
    }
}
