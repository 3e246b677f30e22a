//! That what lists a design's instances has no loop.
ghost use Rattle.net_flat.specs.Laws.{ListingsHaveNoLoop};

/// A loop of a netlist that lists the instances of a design would be a loop of one of its components.
pub fn listings_have_no_loop()
    ensures { ListingsHaveNoLoop }
{}
