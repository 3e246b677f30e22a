//! The top component of a Filament design.
ghost use Rattle.std.specs.Prelude.{◌≢◌, []};
ghost use Rattle.fil_ast.specs.Numbers.{HasNumbers};
ghost use Rattle.fil_ast.specs.Top.{IsTop};
ghost use Rattle.fil_ast.specs.Tree.{design_of};

use fil_ast::FilDesign;

/// The number of the first component that is named `main`; where none is, of the last.
pub(crate) fn top_of(design: &FilDesign) -> usize
    requires numbers { HasNumbers design.now }
    requires some { design_of design.now ≢ [] }
    ensures { IsTop (design_of design.now) result }
{
    for (number, comp) in design.comps.iter().enumerate() {
        if design.names.text(comp.name) == "main".as_bytes() {
            return number;
        }
    }
    design.comps.len() - 1
}
