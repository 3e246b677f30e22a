//! A Filament design as guarded wires.
ghost use Rattle.std.specs.Prelude.{IfOk};
ghost use Rattle.cal_ast.specs.Numbers.{HasNumbers};
ghost use Rattle.cal_ast.specs.Tree as calyx;
ghost use Rattle.fil_ast.specs.Plain.{HasPlainTree};
ghost use Rattle.fil_ast.specs.Tree.{design_of};
ghost use Rattle.fil_lower.specs.Lowers.{Lowers};

use crate::body::Body;
use crate::component::lower_component;
use crate::names::copy_names;
use cal_ast::{CalDesign, WireDesign};
use fil_ast::FilOk;
use fil_share::add_component_name;
use hw_bits::Memory;
use hw_names::Names;
use std::alloc::Global;

/// The design as bare Calyx components, in the same order, each with a cell for each instance. As wires they keep Calyx's rules,
/// and each component, as the top, carries every legal list of transactions, at every path.
pub fn lower_fil(alloc: Global, ok: &FilOk<'_>) -> Result<WireDesign, Memory>
    ensures numbers { IfOk result (λ wired. HasNumbers wired.design) }
    ensures lowers { IfOk result (λ wired. HasPlainTree (design_of ok.now) → Lowers (design_of ok.now) (calyx.design_of wired.design)) }
{
    let design = ok.design();
    let mut names = copy_names(alloc, &design.names)?;
    let mut known = names.beside();
    let mut comps = Vec::new(alloc);
    for number in 0..design.comps.len() {
        let body = Body::make(alloc, ok, &known, number)?;
        comps.push(lower_component(alloc, &mut names, &body)?)?;
        add_component_name(&design.names, &mut known, &design.comps[number])?;
    }
    Ok(WireDesign {
        design: CalDesign { names, comps },
    })
}
