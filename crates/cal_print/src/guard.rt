//! Guards. Only parentheses make the printing recur, so runs of `!` may be long.
ghost use Rattle.std.specs.Prelude.{◌≡◌, ◌++◌, List, map, All, OnOk};
ghost use Rattle.hw_names.specs.Name.{Text};
ghost use Rattle.net_core.specs.Guard.{Compares, guards_of, guard_tree, guard_option, source_tree};
ghost use Rattle.cal_ast.specs.Numbers.{SourceHasNumbers, GuardHasNumbers, WhenHasNumbers};
ghost use Rattle.cal_ast.specs.Tree.{port_tree};
ghost use Rattle.cal_print.specs.Layout.{operator_text, is_list, is_compound, guard_text, guards_text, when_text};

use crate::port::put_source;
use cal_ast::CalPort;
use hw_bits::Memory;
use hw_names::Names;
use hw_print::{put, put_if};
use net_core::{Cmp, Guard, Src};

fn operator(op: Cmp) -> &'static [u8]
    ensures { result.now ≡ operator_text op }
{
    match op {
        Cmp::Eq => b"==",
        Cmp::Neq => b"!=",
        Cmp::Lt => b"<",
        Cmp::Gt => b">",
        Cmp::Le => b"<=",
        Cmp::Ge => b">=",
    }
}

/// A comparison.
fn put_test(
    out: &mut Vec<u8>,
    names: &Names,
    op: Cmp,
    left: Src<CalPort>,
    right: Src<CalPort>,
) -> Result<(), Memory>
    requires { SourceHasNumbers names.now left × SourceHasNumbers names.now right }
    ensures { OnOk result (out.new.items ≡ out.old.items ++ guard_text (Compares op (source_tree (port_tree names.now) left) (source_tree (port_tree names.now) right))) }
{
    put_source(out, names, left)?;
    put(out, b" ")?;
    put(out, operator(op))?;
    put(out, b" ")?;
    put_source(out, names, right)
}

/// Whether the guard is a list of guards, which stands in parentheses in another list.
fn is_list(guard: &Guard<CalPort>) -> bool
    ensures { (names : List Text) → result ≡ is_list (guard_tree (port_tree names) guard.now) }
{
    match guard {
        Guard::All(_) | Guard::Any(_) => true,
        Guard::Read(_) | Guard::Test(..) | Guard::Not(_) => false,
    }
}

/// Whether the guard stands in parentheses behind `!`.
fn is_compound(guard: &Guard<CalPort>) -> bool
    ensures { (names : List Text) → result ≡ is_compound (guard_tree (port_tree names) guard.now) }
{
    match guard {
        Guard::All(_) | Guard::Any(_) | Guard::Test(..) => true,
        Guard::Read(_) | Guard::Not(_) => false,
    }
}

/// A guard, however many `!` it begins with.
#[cycle(guards)]
fn put_guard(out: &mut Vec<u8>, names: &Names, guard: &Guard<CalPort>) -> Result<(), Memory>
    requires { GuardHasNumbers names.now guard.now }
    ensures { OnOk result (out.new.items ≡ out.old.items ++ guard_text (guard_tree (port_tree names.now) guard.now)) }
{
    let mut rest = guard;
    loop {
        match rest {
            Guard::Not(operand) => {
                put(out, b"!")?;
                if is_compound(operand) {
                    put(out, b"(")?;
                    put_guard(out, names, operand)?;
                    return put(out, b")");
                }
                rest = operand;
            }
            Guard::Read(source) => return put_source(out, names, **source),
            Guard::Test(op, left, right) => return put_test(out, names, *op, **left, **right),
            Guard::All(guards) => return put_guards(out, names, b" & ", guards),
            Guard::Any(guards) => return put_guards(out, names, b" | ", guards),
        }
    }
}

/// The guards of a list, with this between each two.
#[cycle(guards)]
fn put_guards(
    out: &mut Vec<u8>,
    names: &Names,
    between: &[u8],
    guards: &[Guard<CalPort>],
) -> Result<(), Memory>
    requires { All (GuardHasNumbers names.now) guards.now }
    ensures { OnOk result (out.new.items ≡ out.old.items ++ guards_text between.now (guards_of (map (guard_tree (port_tree names.now)) guards.now))) }
{
    let mut first = true;
    for guard in guards {
        put_if(out, !first, between)?;
        first = false;
        let listed = is_list(guard);
        put_if(out, listed, b"(")?;
        put_guard(out, names, guard)?;
        put_if(out, listed, b")")?;
    }
    Ok(())
}

/// When an assignment acts; nothing where it has no guard.
pub(crate) fn put_when(
    out: &mut Vec<u8>,
    names: &Names,
    guard: &Option<Guard<CalPort>>,
) -> Result<(), Memory>
    requires { WhenHasNumbers names.now guard.now }
    ensures { OnOk result (out.new.items ≡ out.old.items ++ when_text (guard_option (port_tree names.now) guard.now)) }
{
    match guard {
        None => Ok(()),
        Some(guard) => {
            put_guard(out, names, guard)?;
            put(out, b" ? ")
        }
    }
}
