//! What stands around an item: the design, the component, and what their names mean.
ghost use Rattle.std.specs.Prelude.{◌≡◌, ◌<◌, Some, length, map, slice_get, All, IfOk};
ghost use Rattle.cal_ast.specs.Naming.{cell_names, group_names};
ghost use Rattle.cal_ast.specs.Numbers.{CellHasNumbers, GroupHasNumbers};
ghost use Rattle.cal_ast.specs.Tree.{cell_tree, group_tree};
ghost use Rattle.cal_place.specs.FirstPlaces.{ShowsFirsts};

use crate::first_places::FirstPlaces;
use crate::nesting::Nesting;
use crate::prototype::{Prototype, go_of, primitive_pin};
use crate::signature::{Pin, Side, Signature};
use crate::tables::Tables;
use cal_ast::{CalCell, CalComp, CalDesign, CalPort, Group};
use hw_bits::Memory;
use hw_names::{NameId, Names};
use std::alloc::Global;
use std::marker::Model;

/// A design, and what is known of it as a whole.
#[derive(Clone, Copy)]
pub struct Overview<'a> {
    pub design: &'a CalDesign,
    /// What its names mean.
    pub tables: &'a Tables,
    /// Which components have cells of which.
    pub nesting: &'a Nesting,
}

/// A component of a design, and what the names mean that its lines name.
#[derive(Drop)]
pub struct Place<'a> {
    design: &'a CalDesign,
    tables: &'a Tables,
    /// The component's number, and the component.
    number: usize,
    comp: &'a CalComp,
    /// The component's cells and groups by their names.
    cells: FirstPlaces,
    groups: FirstPlaces,
    /// The components that reach this one are marked; there is no mark where no part of it does.
    holders: Vec<bool>,
}

impl<'a> Model for Place<'a> {
    ghost use Rattle.cal_ast.specs.contracts.tree.CalComp as comp_type;
    ghost use Rattle.cal_ast.specs.contracts.tree.CalDesign as design_type;
    ghost use Rattle.cal_place.specs.Around.{Around};
    ghost use Rattle.cal_place.specs.PlaceTables.{StandsIn};
    ghost use Rattle.std.specs.Coded.{codes};

    ghost Value = { Around };

    ghost coded = { Prim.hlevel (codes, design_type.the_row.coded, comp_type.the_row.coded) };

    ghost view = { λ place. record {
      design = place.design.now;
      number = place.number;
      comp = place.comp.now;
    } };

    ghost invariant = { λ place. StandsIn place.design.now place.tables.now place.number place.comp.now place.cells place.groups place.holders.items };
}

/// The cells of a component by their names.
fn cells_of(alloc: Global, names: &Names, cells: &[CalCell]) -> Result<FirstPlaces, Memory>
    requires { All (CellHasNumbers names.now) cells.now }
    ensures { IfOk result (λ firsts. ShowsFirsts firsts (cell_names (map (cell_tree names.now) cells.now))) }
{
    let mut firsts = FirstPlaces::new(alloc, names);
    for (place, cell) in cells.iter().enumerate() {
        firsts.add(names.text(cell.name), place)?;
    }
    Ok(firsts)
}

/// The groups of a component by their names.
fn groups_of(alloc: Global, names: &Names, groups: &[Group]) -> Result<FirstPlaces, Memory>
    requires { All (GroupHasNumbers names.now) groups.now }
    ensures { IfOk result (λ firsts. ShowsFirsts firsts (group_names (map (group_tree names.now) groups.now))) }
{
    let mut firsts = FirstPlaces::new(alloc, names);
    for (place, group) in groups.iter().enumerate() {
        firsts.add(names.text(group.name), place)?;
    }
    Ok(firsts)
}

impl<'a> Place<'a> {
    ghost use Rattle.std.specs.Prelude.{◌≡◌, ◌↔◌, ◌<◌, length, slice_get, Contains, Some, None, IfOk, IfSome, IsTrue, codes, option_map, option_and_then, IsSome};
    ghost use Rattle.hw_names.specs.Name.{text_of};
    ghost use Rattle.hw_prims.specs.Table.{IsMade};
    ghost use Rattle.cal_ast.specs.Controlling.{group_named};
    ghost use Rattle.cal_ast.specs.Invoking as invoking;
    ghost use Rattle.cal_ast.specs.Naming.{HasNewNames, Involves, cell_names, component_names, group_names};
    ghost use Rattle.net_core.specs.Numbers.{IsNumberOf};
    ghost use Rattle.cal_ast.specs.Numbers.{ComponentHasNumbers, HasNumbers, PortHasNumbers};
    ghost use Rattle.cal_ast.specs.Ports.{cell_named, part_in, port_in, primitive_in};
    ghost use Rattle.cal_ast.specs.Sides.{IsSource};
    ghost use Rattle.cal_ast.specs.Tree.{CellDef, Component, component_tree, design_of, group_tree, own, port_of, port_tree};
    ghost use Rattle.cal_place.specs.Around.{comp_at, design_at, earlier_at, names_at};
    ghost use Rattle.cal_place.specs.FirstPlaces.{IsFirst, TellsFirst};
    ghost use Rattle.cal_place.specs.Prototypes.{IsMadeOf, made_component, made_primitive};
    ghost use Rattle.cal_place.specs.Nesting.{ShowsNesting};
    ghost use Rattle.cal_place.specs.Signatures.{ShowsSignature, found};
    ghost use Rattle.cal_place.specs.Tables.{ShowsTables};

    /// The place of the component of this number.
    pub fn of(alloc: Global, overview: &Overview<'a>, number: usize) -> Result<Place<'a>, Memory>
        requires numbers { HasNumbers overview.now.design.now }
        requires tables { ShowsTables (design_of overview.now.design.now) overview.now.tables.now }
        requires nesting { ShowsNesting (design_of overview.now.design.now) overview.now.nesting.now }
        requires number { number < length overview.now.design.now.comps.items }
        ensures names { IfOk result (λ place. names_at place ≡ overview.now.design.now.names) }
        ensures design { IfOk result (λ place. design_at place ≡ design_of overview.now.design.now) }
        ensures number { IfOk result (λ place. place.number ≡ number) }
        ensures comp { IfOk result (λ place. slice_get (design_of overview.now.design.now) number ≡ Some (comp_at place)) }
    {
        let design = overview.design;
        let comp = &design.comps[number];
        let cells = cells_of(alloc, &design.names, &comp.cells)?;
        let groups = groups_of(alloc, &design.names, &comp.groups)?;
        let holders = overview.nesting.holders_of(alloc, number)?;
        Ok(Place {
            design,
            tables: overview.tables,
            number,
            comp,
            cells,
            groups,
            holders,
        })
    }

    /// The component.
    pub fn comp(&self) -> &'a CalComp
        ensures comp { component_tree (names_at self.now) result.now ≡ comp_at self.now }
        ensures numbers { ComponentHasNumbers (names_at self.now) result.now }
        ensures at { slice_get (design_at self.now) self.now.number ≡ Some (comp_at self.now) }
    {
        self.comp
    }

    /// The component's number.
    pub fn number(&self) -> usize
        ensures { result ≡ self.now.number }
    {
        self.number
    }

    /// The text of a name.
    pub fn text(&self, id: NameId) -> &'a [u8]
        requires { IsNumberOf (names_at self.now) id }
        ensures { result.now ≡ text_of (names_at self.now) id }
    {
        self.design.names.text(id)
    }

    /// The design's names.
    pub fn names(&self) -> &'a Names
        ensures { result.now ≡ names_at self.now }
    {
        &self.design.names
    }

    /// The ports of the component.
    pub fn signature(&self) -> &'a Signature
        ensures { ShowsSignature result.now (comp_at self.now) }
    {
        &self.tables.signatures[self.number]
    }

    /// The ports of the component of this number.
    pub fn signature_of(&self, number: usize) -> &'a Signature
        requires { number < length (design_at self.now) }
        ensures { (c : Component) → slice_get (design_at self.now) number ≡ Some c → ShowsSignature result.now c }
    {
        &self.tables.signatures[number]
    }

    /// Whether the component has an input `go`.
    pub fn has_go(&self) -> bool
        ensures { IsTrue result ↔ IsSource (design_at self.now) (comp_at self.now) (own (codes "go")) }
    {
        match self.signature().find(b"go") {
            Some(pin) => pin.side == Side::Input,
            None => false,
        }
    }

    /// Whether the component is the first of its name.
    pub fn is_first(&self) -> bool
        ensures { IsTrue result ↔ ¬ Contains (component_names (earlier_at self.now)) (comp_at self.now).name }
    {
        self.tables.comps.find(self.text(self.comp.name)) == Some(self.number)
    }

    /// Whether the cell at this place is the first of its name.
    pub fn is_first_cell(&self, place: usize, name: NameId) -> bool
        requires { IsNumberOf (names_at self.now) name }
        ensures { IsTrue result ↔ IsFirst (cell_names (comp_at self.now).cells) (text_of (names_at self.now) name) place }
    {
        self.cells.find(self.text(name)) == Some(place)
    }

    /// Whether the group at this place is the first of its name.
    pub fn is_first_group(&self, place: usize, name: NameId) -> bool
        requires { IsNumberOf (names_at self.now) name }
        ensures { IsTrue result ↔ IsFirst (group_names (comp_at self.now).groups) (text_of (names_at self.now) name) place }
    {
        self.groups.find(self.text(name)) == Some(place)
    }

    /// What the cell at this place is made of, if it is made of something.
    pub fn made(&self, place: usize) -> Option<Prototype>
        ensures { (cell : CellDef) → slice_get (comp_at self.now).cells place ≡ Some cell → IsMadeOf (design_at self.now) cell result }
    {
        self.tables.made[self.number].get(place).copied().flatten()
    }

    /// Whether the component of this number, of which a cell is made, has the component's name or reaches it.
    pub fn comes_back(&self, part: usize) -> bool
        requires new { HasNewNames (earlier_at self.now) (comp_at self.now) }
        requires cell { (cell : CellDef) × Contains (comp_at self.now).cells cell × IsMadeOf (design_at self.now) cell (Some (Prototype.Component part)) }
        ensures { (c : Component) → slice_get (design_at self.now) part ≡ Some c → IsTrue result ↔ Involves (design_at self.now) (comp_at self.now).name c }
    {
        self.holders.get(part).copied().unwrap_or(false)
    }

    /// What the cell of this name is made of, if there is one that is made of something.
    pub fn made_in(&self, cell: NameId) -> Option<Prototype>
        requires { IsNumberOf (names_at self.now) cell }
        ensures primitive { primitive_in (comp_at self.now) (text_of (names_at self.now) cell) ≡ option_and_then made_primitive result }
        ensures in_range { IfSome (option_and_then made_primitive result) IsMade }
        ensures part { part_in (design_at self.now) (comp_at self.now) (text_of (names_at self.now) cell) ≡ option_and_then (slice_get (design_at self.now)) (option_and_then made_component result) }
        ensures within { IfSome (option_and_then made_component result) (λ number. number < length (design_at self.now)) }
    {
        self.made(self.cells.find(self.text(cell))?)
    }

    /// The port that starts the cell of this name, if there is one that can be invoked.
    pub fn go(&self, cell: NameId) -> Option<&'static str>
        requires { IsNumberOf (names_at self.now) cell }
        ensures { option_map (λ go. go.now) result ≡ invoking.go_of (design_at self.now) (comp_at self.now) (text_of (names_at self.now) cell) }
    {
        go_of(self.made_in(cell)?)
    }

    /// The first place of a cell of this name.
    pub fn cell(&self, name: &[u8]) -> Option<usize>
        ensures { TellsFirst (cell_names (comp_at self.now).cells) name.now result }
    {
        self.cells.find(name)
    }

    /// Whether there is a cell of this name.
    pub fn has_cell(&self, cell: NameId) -> bool
        requires { IsNumberOf (names_at self.now) cell }
        ensures { IsTrue result ↔ IsSome (cell_named (comp_at self.now).cells (text_of (names_at self.now) cell)) }
    {
        self.cells.find(self.text(cell)).is_some()
    }

    /// The port of this name of what the cell is made of, if there is one.
    fn cell_pin(&self, cell: NameId, name: &[u8]) -> Option<Pin>
        requires { IsNumberOf (names_at self.now) cell }
        ensures { result ≡ option_map found (port_in (design_at self.now) (comp_at self.now) (port_of (text_of (names_at self.now) cell) name.now)) }
    {
        match self.made_in(cell)? {
            Prototype::Primitive(prim) => primitive_pin(prim, name),
            Prototype::Component(part) => self.signature_of(part).find(name),
        }
    }

    /// The port of the component, or of the cell, of this name.
    pub fn pin(&self, cell: Option<NameId>, name: &[u8]) -> Option<Pin>
        requires { IfSome cell (IsNumberOf (names_at self.now)) }
        ensures { result ≡ option_map found (port_in (design_at self.now) (comp_at self.now) (record { cell = option_map (text_of (names_at self.now)) cell; pin = name.now })) }
    {
        match cell {
            None => self.signature().find(name),
            Some(cell) => self.cell_pin(cell, name),
        }
    }

    /// The port that a line names.
    pub fn port(&self, port: CalPort) -> Option<Pin>
        requires { PortHasNumbers (names_at self.now) port }
        ensures { result ≡ option_map found (port_in (design_at self.now) (comp_at self.now) (port_tree (names_at self.now) port)) }
    {
        self.pin(port.cell, self.text(port.port))
    }

    /// The first group of a name.
    pub fn group(&self, name: NameId) -> Option<&'a Group>
        requires { IsNumberOf (names_at self.now) name }
        ensures { option_map (λ g. group_tree (names_at self.now) g.now) result ≡ group_named (comp_at self.now).groups (text_of (names_at self.now) name) }
    {
        self.comp.groups.get(self.groups.find(self.text(name))?)
    }
}
