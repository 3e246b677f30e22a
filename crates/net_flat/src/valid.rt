//! That a listing of a design's instances is a valid netlist.
ghost use Rattle.net_flat.specs.Laws.{ListingsAreValid};

/// A listing of the instances of a design of wires keeps N1 to N5.
pub fn listings_are_valid()
    ensures { ListingsAreValid }
{}
