//! Short names in the order of full names, told by hand.
ghost use Rattle.std.specs.Prelude.{length, All, IsTrue};
ghost use Rattle.hw_short.specs.Order.{IsFit};

use crate::graphs::names_of;
use hw_bits::Memory;
use hw_names::Names;
use hw_short::{FullName, short_names};
use hw_texts::{Texts, text_at};
use std::alloc::Global;
use std::test::Fail;

/// Texts, and full names of them from the last to the first. By bytes `a$.in` stands before `a.in`.
const TEXTS: [&str; 5] = ["in", "out", "a", "a$", "go"];

const FALLING: [FullName; 5] = [
    FullName::Nameless,
    FullName::Own(4),
    FullName::Dotted { owner: 2, name: 1 },
    FullName::Dotted { owner: 2, name: 0 },
    FullName::Dotted { owner: 3, name: 0 },
];

/// Whether its numbers are those of texts, of which there are so many.
fn is_fit(full: FullName, count: usize) -> bool
    ensures { IsTrue result → IsFit count full }
{
    match full {
        FullName::Own(name) => name < count,
        FullName::Dotted { owner, name } => owner < count && name < count,
        FullName::Nameless => true,
    }
}

/// Whether all are fit.
fn are_fit(full: &[FullName], count: usize) -> bool
    ensures { IsTrue result → All (IsFit count) full.now }
{
    full.iter().all(|name| is_fit(*name, count))
}

/// Short names of full names of these texts.
fn short_of(alloc: Global, names: &Names, full: &[FullName]) -> Result<Option<Names>, Memory> {
    if full.len() > 100 || !are_fit(full, names.len()) {
        return Err(Memory);
    }
    short_names(alloc, &Texts::new(names), full)
}

#[test]
fn short_names_stand_in_the_order_of_full_names(rt: HostRuntime) -> Result<(), Fail> {
    let names = names_of(rt.alloc(), &TEXTS)?;
    let short = short_of(rt.alloc(), &names, &FALLING)?.ok_or("no text has a dot")?;
    assert_eq!(rt; short.len(), FALLING.len());
    for number in 1..short.len() {
        let (before, after) = (text_at(&short, number - 1), text_at(&short, number));
        assert!(rt; after.cmp(before).is_lt(), "at {number}");
    }
    Ok(())
}

#[test]
fn a_text_with_a_dot_has_no_short_names(rt: HostRuntime) -> Result<(), Fail> {
    let names = names_of(rt.alloc(), &["a.b", "c"])?;
    for (number, is_short) in [(0, false), (1, true)] {
        let short = short_of(rt.alloc(), &names, &[FullName::Own(number)])?;
        assert_eq!(rt; short.is_some(), is_short, "of text {number}");
    }
    Ok(())
}
