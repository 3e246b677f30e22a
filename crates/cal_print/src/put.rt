//! Words at the end of a text.
ghost use Rattle.std.specs.Prelude.{◌≡◌, [], ◌++◌, if◌then◌else◌, decimal, OnOk};
ghost use Rattle.hw_names.specs.Name.{text_of};
ghost use Rattle.net_core.specs.Numbers.{IsNumberOf};
ghost use Rattle.cal_print.specs.Layout.{joined};

use hw_bits::Memory;
use hw_names::{NameId, Names};
use hw_print::{put, put_number};

pub(crate) fn put_numbers(out: &mut Vec<u8>, numbers: &[u128]) -> Result<(), Memory>
    ensures { OnOk result (out.new.items ≡ out.old.items ++ joined decimal numbers.now) }
{
    let [first, others @ ..] = numbers else {
        return Ok(());
    };
    put_number(out, *first)?;
    for number in others {
        put(out, b", ")?;
        put_number(out, *number)?;
    }
    Ok(())
}
