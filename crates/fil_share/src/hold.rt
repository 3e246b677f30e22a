//! Uses of a unit, and whether two of them overlap.
ghost use Rattle.std.specs.Prelude.{◌↔◌, All, IsTrue, IsNone, IfSome};
ghost use Rattle.fil_share.specs.Sharing.{AreApart, IsFirstOverlap};

use hw_names::NameId;

/// A use of an event of a unit: the invocation `call` of the instance `inst` triggers the event with this number of
/// its callee in transaction `tx`, and holds the unit in the rows `[from, to)`.
#[derive(Clone, Copy, Debug, PartialEq, Eq)]
pub struct Hold {
    pub inst: NameId,
    pub event: u8,
    pub from: u64,
    pub to: u64,
    pub call: NameId,
    pub tx: u64,
}

/// Transactions that start at row 0 and at row `gap` both hold the unit in row `cycle`. With the gap 0 it is one
/// transaction, which holds it twice.
#[derive(Clone, Copy, Debug, PartialEq, Eq)]
pub struct Meet {
    pub gap: u64,
    pub cycle: u64,
}

/// Whether one of the two ends before or where the other starts.
fn are_apart(first: &Hold, second: &Hold) -> bool
    ensures { IsTrue result ↔ AreApart first.now second.now }
{
    first.to <= second.from || second.to <= first.from
}

/// The place of the first of the earlier uses that overlaps this one.
pub(crate) fn first_overlap(earlier: &[Hold], use_now: &Hold) -> Option<usize>
    ensures none { IsNone result ↔ All (λ hold. AreApart hold use_now.now) earlier.now }
    ensures first { IfSome result (IsFirstOverlap earlier.now use_now.now) }
{
    for (place, hold) in earlier.iter().enumerate() {
        if !are_apart(hold, use_now) {
            return Some(place);
        }
    }
    None
}
