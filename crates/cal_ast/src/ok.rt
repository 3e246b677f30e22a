//! Designs that keep the rules.
ghost use Rattle.std.specs.Prelude.{◌≡◌, ◌<◌, length};
ghost use Rattle.cal_ast.specs.Numbers.{HasNumbers};
ghost use Rattle.cal_ast.specs.Rules.{CalRules};
ghost use Rattle.cal_ast.specs.Tree.{design_of};

use crate::tree::CalDesign;
use std::marker::Model;

/// A lent design that has a component and keeps C1 to C12. Making one takes no memory.
#[derive(Drop)]
pub struct CalOk<'a> {
    design: &'a CalDesign,
}

impl<'a> Model for CalOk<'a> {
    ghost use Rattle.cal_ast.specs.Numbers.{HasNumbers};
    ghost use Rattle.cal_ast.specs.Rules.{CalRules};
    ghost use Rattle.cal_ast.specs.Tree.{design_of};
    ghost use Rattle.cal_ast.specs.contracts.tree.CalDesign as design_type;
    ghost use Rattle.cal_ast.specs.declared.tree.CalDesign.{CalDesign};
    ghost use Rattle.std.specs.Coded.{codes};
    ghost use Rattle.std.specs.Prelude.{◌<◌, length};

    ghost Value = { CalDesign };

    ghost coded = { Prim.hlevel (codes, design_type.the_row.coded) };

    ghost view = { λ ok. ok.design.now };

    ghost invariant = { λ ok. HasNumbers ok.design.now × (0 < length ok.design.now.comps.items) × CalRules (design_of ok.design.now) };
}

impl<'a> CalOk<'a> {
    /// The witness that the design keeps C1 to C12.
    pub fn new(design: &'a CalDesign) -> CalOk<'a>
        requires numbers { HasNumbers design.now }
        requires component { 0 < length design.now.comps.items }
        requires rules { CalRules (design_of design.now) }
        ensures { result ≡ design.now }
    {
        CalOk { design }
    }

    /// The design.
    pub fn design(&self) -> &'a CalDesign
        ensures same { result.now ≡ self.now }
        ensures numbers { HasNumbers result.now }
        ensures component { 0 < length result.now.comps.items }
        ensures rules { CalRules (design_of result.now) }
    {
        self.design
    }
}
