//! A design as text.
ghost use Rattle.std.specs.Prelude.{◌≡◌, ◌++◌, flat_map, All, OnOk, IfOk};
ghost use Rattle.cal_ast.specs.Numbers.{ComponentHasNumbers, HasNumbers};
ghost use Rattle.cal_ast.specs.Tree.{component_tree, design_of};
ghost use Rattle.cal_print.specs.Layout.{cells_text, wires_text, component_head, component_text, design_text};
ghost use Rattle.cal_print.specs.Printed.{PrintsWhatIsRead};

use crate::cell::{put_cells, put_pins};
use crate::control::put_control;
use crate::group::{put_assignments, put_groups};
use cal_ast::{CalComp, CalDesign};
use hw_bits::Memory;
use hw_names::Names;
use hw_print::{put, put_name};
use std::alloc::Global;

/// What a component begins with.
fn put_head(out: &mut Vec<u8>, names: &Names, comp: &CalComp) -> Result<(), Memory>
    requires { ComponentHasNumbers names.now comp.now }
    ensures { OnOk result (out.new.items ≡ out.old.items ++ component_head (component_tree names.now comp.now)) }
{
    put(out, b"component ")?;
    put_name(out, names, comp.name)?;
    put(out, b"(")?;
    put_pins(out, names, &comp.ins)?;
    put(out, b") -> (")?;
    put_pins(out, names, &comp.outs)?;
    put(out, b")")
}

/// The cells and wires of a component.
fn put_sections(out: &mut Vec<u8>, names: &Names, comp: &CalComp) -> Result<(), Memory>
    requires { ComponentHasNumbers names.now comp.now }
    ensures { OnOk result (let tree = component_tree names.now comp.now in out.new.items ≡ out.old.items ++ (cells_text tree.cells ++ wires_text tree.groups tree.sets)) }
{
    put(out, b"  cells {\n")?;
    put_cells(out, names, &comp.cells)?;
    put(out, b"  }\n  wires {\n")?;
    put_groups(out, names, &comp.groups)?;
    put_assignments(out, names, b"    ", &comp.sets)?;
    put(out, b"  }\n")
}

fn put_component(
    alloc: Global,
    out: &mut Vec<u8>,
    names: &Names,
    comp: &CalComp,
) -> Result<(), Memory>
    requires { ComponentHasNumbers names.now comp.now }
    ensures { OnOk result (out.new.items ≡ out.old.items ++ component_text (component_tree names.now comp.now)) }
{
    put_head(out, names, comp)?;
    put(out, b" {\n")?;
    put_sections(out, names, comp)?;
    put_control(alloc, out, names, &comp.control)?;
    put(out, b"}\n")
}

fn put_components(
    alloc: Global,
    out: &mut Vec<u8>,
    names: &Names,
    comps: &[CalComp],
) -> Result<(), Memory>
    requires { All (ComponentHasNumbers names.now) comps.now }
    ensures { OnOk result (out.new.items ≡ out.old.items ++ flat_map (λ c. component_text (component_tree names.now c)) comps.now) }
{
    for comp in comps {
        put_component(alloc, out, names, comp)?;
    }
    Ok(())
}

/// The canonical text of the design. Where some text spells the design, this text spells it too.
pub fn print_calyx(alloc: Global, design: &CalDesign) -> Result<Vec<u8>, Memory>
    requires { HasNumbers design.now }
    ensures text { IfOk result (λ text. text.items ≡ design_text (design_of design.now)) }
    ensures spelled { IfOk result (λ text. PrintsWhatIsRead text.items (design_of design.now)) }
{
    let mut out = Vec::new(alloc);
    put_components(alloc, &mut out, &design.names, &design.comps)?;
    Ok(out)
}
