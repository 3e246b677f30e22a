//! The law that a listing of a design's instances is the design flattened.
ghost use Rattle.net_flat.specs.Laws.{ListingsAreFlattened};

/// A listing has the runs of its design, with the same Conflicts.
pub fn listings_are_flattened()
    ensures { ListingsAreFlattened }
{}
