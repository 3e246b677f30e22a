//! Numbers for texts, and names that are new to a list.
ghost use Rattle.std.specs.Prelude.{◌≡◌, ◌<◌, Some, slice_get, Contains, IfOk};
ghost use Rattle.fil_fsm.specs.Registers.{generated_name};
ghost use Rattle.hw_names.specs.Name.{KeepsTexts};

use hw_bits::Memory;
use hw_names::{NameId, Names};
use hw_print::numbered;
use std::alloc::Global;

/// A name that was new, by its number among the names, and the number that it has in it.
#[derive(Clone, Copy)]
pub struct FreshName {
    pub id: NameId,
    pub number: u64,
}

/// The number of the text, which goes last where it is new. More than `2^32-1` names find no memory.
pub fn intern(names: &mut Names, text: &[u8]) -> Result<NameId, Memory>
    ensures text { IfOk result (λ id. slice_get names.new id.0 ≡ Some text.now) }
    ensures kept { KeepsTexts names.old names.new }
{
    if names.len() >= u32::MAX as usize {
        return Err(Memory);
    }
    names.intern(text)
}

/// The name of a number: `f$`, and its decimal digits.
fn generated(alloc: Global, number: u64) -> Result<Vec<u8>, Memory>
    ensures { IfOk result (λ name. name.items ≡ generated_name number) }
{
    numbered(alloc, b"f$", number)
}

/// Adds the name of a number that was not there: the first from this number on.
pub fn fresh(alloc: Global, names: &mut Names, from: u64) -> Result<FreshName, Memory>
    ensures text { IfOk result (λ fresh. slice_get names.new fresh.id.0 ≡ Some (generated_name fresh.number)) }
    ensures absent { IfOk result (λ fresh. ¬ Contains names.old (generated_name fresh.number)) }
    ensures small { IfOk result (λ fresh. fresh.number < u64.MAX) }
    ensures kept { KeepsTexts names.old names.new }
{
    for number in from..u64::MAX {
        let name = generated(alloc, number)?;
        if names.find(&name).is_none() {
            let id = intern(names, &name)?;
            return Ok(FreshName { id, number });
        }
    }
    Err(Memory)
}
