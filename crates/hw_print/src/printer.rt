//! Words at the end of a text.
ghost use Rattle.std.specs.Prelude.{◌≡◌, ◌<◌, [], ◌++◌, if◌then◌else◌, length, decimal, IfOk, OnOk};
ghost use Rattle.hw_names.specs.Name.{text_of};

use hw_bits::Memory;
use hw_names::{NameId, Names};
use itoa::Buffer;
use std::alloc::Global;

/// Puts the text last. `Memory` when there is none.
pub fn put(out: &mut Vec<u8>, text: &[u8]) -> Result<(), Memory>
    ensures { OnOk result (out.new.items ≡ out.old.items ++ text.now) }
{
    out.extend_from_slice(text)?;
    Ok(())
}

/// Puts the text last, where it is wanted. `Memory` when there is none.
pub fn put_if(out: &mut Vec<u8>, wanted: bool, text: &[u8]) -> Result<(), Memory>
    ensures { OnOk result (out.new.items ≡ out.old.items ++ (if wanted then text.now else [])) }
{
    if wanted { put(out, text) } else { Ok(()) }
}

/// Puts the decimal digits of the number last. `Memory` when there is none.
pub fn put_number(out: &mut Vec<u8>, number: u128) -> Result<(), Memory>
    ensures { OnOk result (out.new.items ≡ out.old.items ++ decimal number) }
{
    let mut buffer = Buffer::new();
    put(out, buffer.format(number).as_bytes())
}

/// Puts the text of the name last. `Memory` when there is none.
pub fn put_name(out: &mut Vec<u8>, names: &Names, name: NameId) -> Result<(), Memory>
    requires { name.0 < length names.now }
    ensures { OnOk result (out.new.items ≡ out.old.items ++ text_of names.now name) }
{
    put(out, names.text(name))
}

/// The text, and the decimal digits of the number after it. `Memory` when there is none.
pub fn numbered(alloc: Global, text: &[u8], number: u64) -> Result<Vec<u8>, Memory>
    ensures { IfOk result (λ name. name.items ≡ text.now ++ decimal number) }
{
    let mut buffer = Buffer::new();
    let mut name = Vec::from_slice(alloc, text)?;
    name.extend_from_slice(buffer.format(number).as_bytes())?;
    Ok(name)
}
