//! What cells are made of.
ghost use Rattle.std.specs.Prelude.{◌≡◌, ◌<◌, map, All, IfOk, IsSome, Option, option_and_then, option_map, ◌↔◌};
ghost use Rattle.hw_prims.specs.Table.{IsMade, is_primitive};
ghost use Rattle.cal_ast.specs.Invoking.{made_go, primitive_go};
ghost use Rattle.cal_ast.specs.Naming.{component_names};
ghost use Rattle.cal_ast.specs.Numbers.{CellHasNumbers};
ghost use Rattle.cal_ast.specs.Ports.{both_sides, port_named};
ghost use Rattle.cal_ast.specs.Tree.{Component, Design, cell_tree};
ghost use Rattle.hw_prims.specs.Table.{inputs_of, outputs_of};
ghost use Rattle.cal_place.specs.FirstPlaces.{ShowsFirsts};
ghost use Rattle.cal_place.specs.Prototypes.{AreMadeOf, IsMadeOf, made_component, made_primitive, side_of_dir};
ghost use Rattle.cal_place.specs.Signatures.{found};

use crate::first_places::FirstPlaces;
use crate::signature::{Pin, Side};
use cal_ast::CalCell;
use hw_bits::Memory;
use hw_names::Names;
use hw_prims::{Dir, Prim, PrimEnd};
use std::alloc::Global;

/// What a cell is made of: a primitive with its parameters, or the component of this number.
#[derive(Clone, Copy, Debug, PartialEq, Eq)]
pub enum Prototype {
    Primitive(Prim),
    Component(usize),
}

/// The number of the component that a cell is made of, if it is made of one.
pub fn component_of(made: Option<Prototype>) -> Option<usize>
    ensures { result ≡ option_and_then made_component made }
{
    match made {
        Some(Prototype::Component(number)) => Some(number),
        _ => None,
    }
}

/// Whether the table of primitives has the name.
pub fn is_primitive(name: &[u8]) -> bool
    ensures { result ≡ is_primitive name.now }
{
    match Prim::make(name, &[]) {
        Err(PrimEnd::UnknownPrim) => false,
        _ => true,
    }
}

/// What a cell is made of, where `comps` are the components by their names. `None` where nothing has the name, or the
/// parameters of a primitive are wrong.
fn made_of(names: &Names, comps: &FirstPlaces, cell: &CalCell) -> Option<Prototype>
    requires { CellHasNumbers names.now cell.now }
    ensures { (design : Design) → ShowsFirsts comps.now (component_names design) → IsMadeOf design (cell_tree names.now cell.now) result }
{
    let made = names.text(cell.made);
    match Prim::make(made, &cell.params) {
        Ok(prim) => Some(Prototype::Primitive(prim)),
        Err(PrimEnd::BadParams) => None,
        Err(PrimEnd::UnknownPrim) => Some(Prototype::Component(comps.find(made)?)),
    }
}

/// What each of the cells is made of.
pub fn made_of_each(
    alloc: Global,
    names: &Names,
    comps: &FirstPlaces,
    cells: &[CalCell],
) -> Result<Vec<Option<Prototype>>, Memory>
    requires { All (CellHasNumbers names.now) cells.now }
    ensures { (design : Design) → ShowsFirsts comps.now (component_names design)
        → IfOk result (λ made. AreMadeOf design (map (cell_tree names.now) cells.now) made.items) }
{
    let mut made = Vec::new(alloc);
    for cell in cells {
        made.push(made_of(names, comps, cell))?;
    }
    Ok(made)
}

/// The side of a primitive's port.
fn side_of(dir: Dir) -> Side
    ensures { result ≡ side_of_dir dir }
{
    match dir {
        Dir::Input => Side::Input,
        Dir::Output => Side::Output,
    }
}

/// The port of a primitive of this name. A primitive has few.
pub fn primitive_pin(prim: Prim, name: &[u8]) -> Option<Pin>
    requires { IsMade prim }
    ensures { result ≡ option_map found (port_named (both_sides (inputs_of prim) (outputs_of prim)) name.now) }
{
    let mut place = 0;
    while let Some(port) = prim.port(place) {
        if port.name.as_bytes() == name {
            let side = side_of(port.dir);
            let width = port.width as u128;
            return Some(Pin { side, width });
        }
        place += 1;
    }
    None
}

/// The port that starts a primitive, if it can be invoked.
#[tactic(auto, unfolding(hw_prims::specs::Memory::keeps_words))]
fn primitive_go(prim: Prim) -> Option<&'static str>
    ensures { option_map (λ go. go.now) result ≡ primitive_go prim }
{
    match prim {
        Prim::StdReg { .. } => Some("write_en"),
        Prim::StdMultPipe { .. } => Some("go"),
        Prim::StdMemD1 { .. } => Some("write_en"),
        Prim::StdMemD2 { .. } => Some("write_en"),
        _ => None,
    }
}

/// The port that starts what a cell is made of, if it can be invoked.
pub fn go_of(made: Prototype) -> Option<&'static str>
    ensures { (part : Option Component) → (IsSome (made_component made) ↔ IsSome part)
        → option_map (λ go. go.now) result ≡ made_go (made_primitive made) part }
{
    match made {
        Prototype::Primitive(prim) => primitive_go(prim),
        Prototype::Component(_) => Some("go"),
    }
}
