//! Designs that keep the rules.
ghost use Rattle.std.specs.Prelude.{◌≡◌};
ghost use Rattle.fil_ast.specs.Limits.{HasSmallOffsets};
ghost use Rattle.fil_ast.specs.Numbers.{HasNumbers};
ghost use Rattle.fil_ast.specs.Rules.{FilRules};
ghost use Rattle.fil_ast.specs.Tree.{design_of};

use crate::tree::FilDesign;
use std::marker::Model;

/// A lent design that keeps F1 to F14, with small offsets and delays. Making one takes no memory.
#[derive(Drop)]
pub struct FilOk<'a> {
    design: &'a FilDesign,
}

impl<'a> Model for FilOk<'a> {
    ghost use Rattle.fil_ast.specs.Limits.{HasSmallOffsets};
    ghost use Rattle.fil_ast.specs.Numbers.{HasNumbers};
    ghost use Rattle.fil_ast.specs.Rules.{FilRules};
    ghost use Rattle.fil_ast.specs.Tree.{design_of};
    ghost use Rattle.fil_ast.specs.declared.tree.FilDesign.{FilDesign};

    ghost Value = { FilDesign };

    ghost view = { λ ok. ok.design.now };

    ghost invariant = { λ ok. HasNumbers ok.design.now × HasSmallOffsets ok.design.now × FilRules (design_of ok.design.now) };
}

impl<'a> FilOk<'a> {
    /// The witness that the design keeps F1 to F14.
    pub fn new(design: &'a FilDesign) -> FilOk<'a>
        requires numbers { HasNumbers design.now }
        requires small { HasSmallOffsets design.now }
        requires rules { FilRules (design_of design.now) }
        ensures { result ≡ design.now }
    {
        FilOk { design }
    }

    /// The design.
    pub fn design(&self) -> &'a FilDesign
        ensures same { result.now ≡ self.now }
        ensures numbers { HasNumbers result.now }
        ensures small { HasSmallOffsets result.now }
        ensures rules { FilRules (design_of result.now) }
    {
        self.design
    }
}
