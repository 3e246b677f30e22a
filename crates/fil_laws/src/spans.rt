//! What transactions hold of an instance, and the transactions that it is given, are one.
ghost use Rattle.fil_laws.specs.Spans.{HoldsAreGiven, ProgramHoldsAreGiven, StartsAreGiven};

/// What transactions hold of an instance is, span by span, what the transactions hold that it is given.
pub fn holds_are_given()
    ensures { HoldsAreGiven }
{}

/// A program's transactions start when they do at the ports of their component.
pub fn starts_are_given()
    ensures { StartsAreGiven }
{}

/// So what they hold of an instance is, span by span, what the transactions hold that it is given.
pub fn program_holds_are_given()
    ensures { ProgramHoldsAreGiven }
{}
