//! The places of names.
ghost use Rattle.std.specs.Prelude.{◌≡◌, ◌<◌, true, false, length, map, IfOk, MatchOption};
ghost use Rattle.hw_names.specs.Name.{AreDistinct};
ghost use Rattle.stim_read.specs.Parts.{is_one_of};
ghost use Rattle.stim_read.specs.CycleRules.{input_targets, memory_targets, place_in};

use fil_sig::add_name;
use hw_bits::Memory;
use hw_names::{Keyed, Names, Word};
use net_core::{InputShape, MemShape};
use std::alloc::Global;

/// Hashing that the names of all these tell.
pub(crate) fn keyed_by<T, NameOf: Fn(&T) -> &Word>(named: &[T], name_of: NameOf) -> Keyed
    requires { NameOf.IsAlwaysCallable name_of }
{
    let mut keyed = Keyed::new();
    for one in named {
        keyed.add(name_of(one).bytes());
    }
    keyed
}

/// The names of inputs, which differ.
pub(crate) fn input_names(alloc: Global, ins: &[InputShape]) -> Result<Names, Memory>
    requires { AreDistinct (input_targets ins.now).names }
    ensures { IfOk result (λ names. names ≡ (input_targets ins.now).names) }
{
    let mut names = Names::hashed_by(alloc, keyed_by(ins, |port| &port.name));
    for port in ins {
        let new = add_name(&mut names, port.name.bytes())?;
        prove!(new);
    }
    Ok(names)
}

/// The names of memories, which differ.
pub(crate) fn memory_names(alloc: Global, mems: &[MemShape]) -> Result<Names, Memory>
    requires { AreDistinct (memory_targets mems.now).names }
    ensures { IfOk result (λ names. names ≡ (memory_targets mems.now).names) }
{
    let mut names = Names::hashed_by(alloc, keyed_by(mems, |shape| &shape.name));
    for shape in mems {
        let new = add_name(&mut names, shape.name.bytes())?;
        prove!(new);
    }
    Ok(names)
}

/// The place of a name.
pub(crate) fn place(names: &Names, name: &[u8]) -> Option<usize>
    ensures distinct { AreDistinct names.now }
    ensures place { MatchOption result (is_one_of names.now name.now ≡ false)
        (λ place. (is_one_of names.now name.now ≡ true) × (place ≡ place_in names.now name.now) × (place < length names.now)) }
{
    let id = names.find(name)?;
    Some(id.0 as usize)
}
