//! What a shift register shows in a run.
ghost use Rattle.fil_fsm.specs.Delays.{ChainsDelay, PartsMakeChains};

/// In each run, and in each instance, bit i is what bit 0 was i rows before, and 0 where there was no such row.
pub fn chains_delay()
    ensures { ChainsDelay }
{}

/// A component that has the parts of a shift register among its own, and drives their cells by nothing else, has the chain that delays.
pub fn parts_make_chains()
    ensures { PartsMakeChains }
{}
