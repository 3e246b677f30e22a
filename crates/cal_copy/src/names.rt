//! The names of a design that is made of another: the same ones with the same numbers, and further ones after them.
ghost use Rattle.std.specs.Prelude.{◌≡◌, Some, slice_get, IfOk};
ghost use Rattle.hw_names.specs.Name.{KeepsTexts};

use hw_bits::Memory;
use hw_names::{NameId, Names};
use std::alloc::Global;

/// The same names once more, with the same numbers.
pub fn copy_names(alloc: Global, names: &Names) -> Result<Names, Memory>
    ensures { IfOk result (λ copy. copy ≡ names.now) }
{
    let mut copy = names.beside();
    for number in 0..names.len() {
        let _same = copy.intern(names.text(NameId(number as u32)))?;
    }
    Ok(copy)
}

/// The number of the text, which goes last where it is new. More than `2^32-1` names find no memory.
pub fn add_name(names: &mut Names, text: &[u8]) -> Result<NameId, Memory>
    ensures text { IfOk result (λ id. slice_get names.new id.0 ≡ Some text.now) }
    ensures kept { KeepsTexts names.old names.new }
{
    if names.len() >= u32::MAX as usize {
        return Err(Memory);
    }
    names.intern(text)
}
