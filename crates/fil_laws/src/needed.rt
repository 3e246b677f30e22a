//! F10 to F12 refuse nothing but components whose legal transactions hold something twice.
ghost use Rattle.fil_laws.specs.Needed.{DesignsHoldNothingTwice, HoldingRulesAreExact, OverlongIsReal};

/// Where an invocation breaks F10, two transactions that start as far apart as the delay of its event are legal, and hold
/// an event of its instance twice in the row in which the second triggers it.
pub fn overlong_is_real()
    ensures { OverlongIsReal }
{}

/// A component that keeps F1 to F9, after components that keep F1 to F10, keeps F10 to F12 exactly if no legal
/// transactions of it hold an event of an instance twice in a row.
pub fn holding_rules_are_exact()
    ensures { HoldingRulesAreExact }
{}

/// A design that keeps F1 to F9 keeps F10 to F12 exactly if no legal transactions of any of its components do.
pub fn designs_hold_nothing_twice()
    ensures { DesignsHoldNothingTwice }
{}
