//! Ports in the order of their names' bytes.
ghost use Rattle.std.specs.Prelude.{◌≡◌, ℕ, ◌<◌, length, slice_get, slice_index_or, Some, IfNone, IfSome, false};
ghost use Rattle.hw_graph.specs.ByName.{IsLesser, IsLeastWith, IsLeastMarked};

use hw_names::{NameId, Names};
use std::cmp::Ordering;

/// The least of the marked ports by the bytes of its name.
pub fn least_marked(names: &Names, marks: &[bool]) -> Option<usize>
    requires { length marks.now ≡ length names.now }
    ensures none { IfNone result ((port : ℕ) → port < length marks.now → slice_index_or marks.now port false ≡ false) }
    ensures some { IfSome result (λ least. IsLeastMarked names.now marks.now least) }
{
    let mut least = None;
    for (port, marked) in marks.iter().enumerate() {
        if *marked {
            least = Some(lesser_of(names, least, port));
        }
    }
    least
}

/// The lesser of the port that was found, if one was, and another.
pub fn lesser_of(names: &Names, found: Option<usize>, port: usize) -> usize
    requires found { IfSome found (λ other. other < length names.now) }
    requires port { port < length names.now }
    ensures { IsLeastWith names.now found port result }
{
    match found {
        Some(other) => lesser(names, other, port),
        None => port,
    }
}

/// The lesser of two ports by the bytes of their names.
fn lesser(names: &Names, first: usize, second: usize) -> usize
    requires first { first < length names.now }
    requires second { second < length names.now }
    ensures { IsLesser names.now first second result }
{
    match text_at(names, first).cmp(text_at(names, second)) {
        Ordering::Greater => second,
        _ => first,
    }
}

/// The name of a port.
fn text_at(names: &Names, port: usize) -> &[u8]
    requires { port < length names.now }
    ensures { slice_get names.now port ≡ Some result.now }
{
    let _count = names.len();
    names.text(NameId(port as u32))
}
