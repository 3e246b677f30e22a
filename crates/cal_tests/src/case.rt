//! Designs of texts, and texts that repeat.
ghost use Rattle.std.specs.Prelude.{◌<◌, length, IfOk};
ghost use Rattle.cal_ast.specs.Numbers.{HasNumbers};

use cal_ast::CalDesign;
use cal_parse::parse_calyx;
use std::alloc::Global;
use std::test::Fail;

/// The design that a text spells.
pub(crate) fn read(alloc: Global, text: &str) -> Result<CalDesign, Fail>
    ensures numbers { IfOk result HasNumbers }
    ensures component { IfOk result (λ design. 0 < length design.comps.items) }
{
    let design = parse_calyx(alloc, text.as_bytes())?;
    if design.comps.is_empty() {
        return Err("no component".into());
    }
    Ok(design)
}

/// Puts a part so many times last.
pub(crate) fn push_times(text: &mut String, part: &str, times: u64) -> Result<(), Fail> {
    for _ in 0..times {
        text.push_str(part)?;
    }
    Ok(())
}
