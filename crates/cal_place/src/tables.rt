//! What the names of a design mean, in tables.
ghost use Rattle.std.specs.Prelude.{IfOk};
ghost use Rattle.cal_ast.specs.Naming.{component_names};
ghost use Rattle.cal_ast.specs.Numbers.{HasNumbers};
ghost use Rattle.cal_ast.specs.Tree.{design_of};
ghost use Rattle.cal_place.specs.FirstPlaces.{ShowsFirsts};
ghost use Rattle.cal_place.specs.Tables.{AreMade, AreSignatures, ShowsTables};

use crate::first_places::FirstPlaces;
use crate::prototype::{Prototype, made_of_each};
use crate::signature::Signature;
use cal_ast::CalDesign;
use hw_bits::Memory;
use std::alloc::Global;

/// What the names of a design mean.
#[derive(Drop)]
pub struct Tables {
    /// The components by their names.
    pub comps: FirstPlaces,
    /// The ports of each component.
    pub signatures: Vec<Signature>,
    /// For each component what its cells are made of.
    pub made: Vec<Vec<Option<Prototype>>>,
}

/// The components of a design by their names.
fn comps_of(alloc: Global, design: &CalDesign) -> Result<FirstPlaces, Memory>
    requires { HasNumbers design.now }
    ensures { IfOk result (λ comps. ShowsFirsts comps (component_names (design_of design.now))) }
{
    let mut comps = FirstPlaces::new(alloc, &design.names);
    for (number, comp) in design.comps.iter().enumerate() {
        comps.add(design.names.text(comp.name), number)?;
    }
    Ok(comps)
}

/// The ports of each component.
fn signatures_of(alloc: Global, design: &CalDesign) -> Result<Vec<Signature>, Memory>
    requires { HasNumbers design.now }
    ensures { IfOk result (λ signatures. AreSignatures (design_of design.now) signatures.items) }
{
    let mut signatures = Vec::new(alloc);
    for comp in &design.comps {
        signatures.push(Signature::of(alloc, &design.names, comp)?)?;
    }
    Ok(signatures)
}

/// What the cells of each component are made of.
fn made_in(
    alloc: Global,
    design: &CalDesign,
    comps: &FirstPlaces,
) -> Result<Vec<Vec<Option<Prototype>>>, Memory>
    requires numbers { HasNumbers design.now }
    requires comps { ShowsFirsts comps.now (component_names (design_of design.now)) }
    ensures { IfOk result (λ made. AreMade (design_of design.now) made.items) }
{
    let mut made = Vec::new(alloc);
    for comp in &design.comps {
        made.push(made_of_each(alloc, &design.names, comps, &comp.cells)?)?;
    }
    Ok(made)
}

impl Tables {
    /// The tables of a design.
    pub fn of(alloc: Global, design: &CalDesign) -> Result<Tables, Memory>
        requires { HasNumbers design.now }
        ensures { IfOk result (ShowsTables (design_of design.now)) }
    {
        let comps = comps_of(alloc, design)?;
        let signatures = signatures_of(alloc, design)?;
        let made = made_in(alloc, design, &comps)?;
        Ok(Tables {
            comps,
            signatures,
            made,
        })
    }
}
