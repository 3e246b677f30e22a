//! Guards as Verilog expressions.
ghost use Rattle.std.specs.Prelude.{◌≡◌, ◌++◌, All, List, codes, map, replicate, OnOk};
ghost use Rattle.hw_names.specs.Name.{Text, text_of};
ghost use Rattle.net_core.specs.Guard.{Compares, guard_tree, guards_of, source_tree};
ghost use Rattle.net_core.specs.Numbers.{GuardHasNumbers, SourceHasNumbers};
ghost use Rattle.ver_print.specs.Values.{guard_gap, guard_text, guards_text, operator_text};

use crate::put::{put_source, source_gap_of};
use hw_bits::Memory;
use hw_names::{NameId, Names};
use hw_print::put;
use net_core::{Cmp, Guard, Src};

fn operator(op: Cmp) -> &'static [u8]
    ensures { result.now ≡ operator_text op }
{
    match op {
        Cmp::Eq => b"==",
        Cmp::Neq => b"!=",
        Cmp::Lt => b"<",
        Cmp::Gt => b">",
        Cmp::Le => b"<=",
        Cmp::Ge => b">=",
    }
}

fn put_test(
    out: &mut Vec<u8>,
    names: &Names,
    op: Cmp,
    left: Src<NameId>,
    right: Src<NameId>,
) -> Result<(), Memory>
    requires { SourceHasNumbers names.now left × SourceHasNumbers names.now right }
    ensures { OnOk result (out.new.items ≡ out.old.items ++ guard_text (Compares op (source_tree (text_of names.now) left) (source_tree (text_of names.now) right))) }
{
    put(out, b"(")?;
    put_source(out, names, left)?;
    put(out, source_gap_of(left))?;
    put(out, operator(op))?;
    put(out, b" ")?;
    put_source(out, names, right)?;
    put(out, b")")
}

/// The brackets that end this many negations.
fn put_closed(out: &mut Vec<u8>, count: usize) -> Result<(), Memory>
    ensures { OnOk result (out.new.items ≡ out.old.items ++ replicate count 41) }
{
    for _ in 0..count {
        put(out, b")")?;
    }
    Ok(())
}

/// A guard, however many `!` it begins with.
#[cycle(guards)]
pub(crate) fn put_guard(
    out: &mut Vec<u8>,
    names: &Names,
    guard: &Guard<NameId>,
) -> Result<(), Memory>
    requires { GuardHasNumbers names.now guard.now }
    ensures { OnOk result (out.new.items ≡ out.old.items ++ guard_text (guard_tree (text_of names.now) guard.now)) }
{
    let mut count: usize = 0;
    let mut inner = guard;
    loop {
        match inner {
            Guard::Not(operand) => {
                if count == usize::MAX {
                    return Err(Memory);
                }
                count += 1;
                put(out, b"(!")?;
                inner = operand;
            }
            Guard::Read(source) => {
                put_source(out, names, **source)?;
                return put_closed(out, count);
            }
            Guard::Test(op, left, right) => {
                put_test(out, names, *op, **left, **right)?;
                return put_closed(out, count);
            }
            Guard::All(guards) => {
                put_guards(out, names, b"&& ", guards)?;
                return put_closed(out, count);
            }
            Guard::Any(guards) => {
                put_guards(out, names, b"|| ", guards)?;
                return put_closed(out, count);
            }
        }
    }
}

/// What stands between a guard and the mark after it.
fn guard_gap_of(guard: &Guard<NameId>) -> &'static [u8]
    ensures { (names : List Text) → result.now ≡ guard_gap (guard_tree (text_of names) guard.now) }
{
    match guard {
        Guard::Read(source) => source_gap_of(**source),
        _ => b" ",
    }
}

/// Guards in brackets, with this mark between each two.
#[cycle(guards)]
fn put_guards(
    out: &mut Vec<u8>,
    names: &Names,
    mark: &[u8],
    guards: &[Guard<NameId>],
) -> Result<(), Memory>
    requires { All (GuardHasNumbers names.now) guards.now }
    ensures { OnOk result (out.new.items ≡ out.old.items ++ (codes "(" ++ guards_text mark.now (guards_of (map (guard_tree (text_of names.now)) guards.now)) ++ codes ")")) }
{
    put(out, b"(")?;
    let count = guards.len();
    for (place, guard) in guards.iter().enumerate() {
        put_guard(out, names, guard)?;
        let next = place + 1;
        if next < count {
            put(out, guard_gap_of(guard))?;
            put(out, mark)?;
        }
    }
    put(out, b")")
}
