//! What a Filament component's outputs depend on.
ghost use Rattle.fil_lower.specs.Separate.{ComponentsStaySeparate};

/// An output of a component depends on inputs of its own event alone.
pub fn components_stay_separate()
    ensures { ComponentsStaySeparate }
{}
