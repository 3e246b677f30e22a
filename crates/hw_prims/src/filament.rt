//! Laws of the primitives as Filament's designs use them.
ghost use Rattle.hw_prims.specs.Filament.{PrimitivesAreTimed, PrimitivesAreTimedThrough};

/// Each primitive that Filament can use keeps its timing from its opening state on: where its inputs carry transactions
/// that hold it apart from one another, its output has the value of its function, in the rows that Filament says.
pub fn primitives_are_timed()
    ensures { PrimitivesAreTimed }
{}

/// The same, where of a row's own inputs only those matter on which the output depends within a row.
pub fn primitives_are_timed_through()
    ensures { PrimitivesAreTimedThrough }
{}
