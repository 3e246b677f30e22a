//! Laws of transactions: what they hold in a component of a design that keeps the rules.
ghost use Rattle.fil_share.specs.Held.{HoldsAreListed};
ghost use Rattle.fil_share.specs.Own.{OwnHoldsAreApart, SpacedHoldsAreApart};

/// What is listed as held by transactions is what they hold: each hold is listed, and nothing else.
pub fn holds_are_listed()
    ensures { HoldsAreListed }
{}

/// Under F1 to F14 no two holds by legal transactions of a component meet.
pub fn own_holds_are_apart()
    ensures { OwnHoldsAreApart }
{}

/// The same of transactions that are as far apart, in whatever order they are listed.
pub fn spaced_holds_are_apart()
    ensures { SpacedHoldsAreApart }
{}
