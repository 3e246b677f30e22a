//! The top component of a design.
ghost use Rattle.std.specs.Prelude.{◌<◌, length};
ghost use Rattle.cal_ast.specs.Numbers.{HasNumbers};
ghost use Rattle.cal_ast.specs.Top.{IsTop};
ghost use Rattle.cal_ast.specs.Tree.{design_of};

use cal_ast::CalDesign;

/// The number of the first component with the name `main`; where there is none, of the last.
pub(crate) fn top_of(design: &CalDesign) -> usize
    requires some { 0 < length design.now.comps.items }
    requires numbers { HasNumbers design.now }
    ensures top { IsTop (design_of design.now) result }
    ensures within { result < length design.now.comps.items }
{
    for (number, comp) in design.comps.iter().enumerate() {
        if design.names.text(comp.name) == b"main".as_slice() {
            return number;
        }
    }
    design.comps.len() - 1
}
