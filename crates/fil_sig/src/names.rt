//! Names that have to be new.
ghost use Rattle.std.specs.Prelude.{◌≡◌, [], ◌∷◌, ◌++◌, true, false, Ok, Contains, OnOk};
ghost use Rattle.hw_names.specs.Name.{AreDistinct};

use hw_bits::Memory;
use hw_names::Names;

/// Puts a name last, unless it is there already; says whether it was new. More than `2^32-1` names
/// find no memory.
pub fn add_name(names: &mut Names, name: &[u8]) -> Result<bool, Memory>
    ensures new { result ≡ Ok true → (¬ Contains names.old name.now) × (names.new ≡ names.old ++ name.now ∷ []) }
    ensures there { result ≡ Ok false → Contains names.old name.now × (names.new ≡ names.old) }
    ensures distinct { AreDistinct names.new }
{
    if names.find(name).is_some() {
        return Ok(false);
    }
    if names.len() >= u32::MAX as usize {
        return Err(Memory);
    }
    let _id = names.intern(name)?;
    Ok(true)
}
