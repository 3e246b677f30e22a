//! Laws of the rows that a simulation makes, one after another, and of orders.
ghost use Rattle.net_sim.specs.OneRun.{OneRun, OrderRulesLoopsOut};
ghost use Rattle.net_sim.specs.Standing.{StandsAtStart, LoadsOneWord, StandsAtNext, EndsAfterAll, EndsInItsConflict};

/// Before its first row a simulation stands at row 0 of each run with the words that were loaded.
pub fn stands_at_start()
    ensures { StandsAtStart }
{}

/// A load changes one word of what is loaded.
pub fn loads_one_word()
    ensures { LoadsOneWord }
{}

/// A row without a Conflict and an edge go on to the next row of the run.
pub fn stands_at_next()
    ensures { StandsAtNext }
{}

/// A simulation that stands after the last row has made the run.
pub fn ends_after_all()
    ensures { EndsAfterAll }
{}

/// A Conflict ends the run, and its port is the reported one.
pub fn ends_in_its_conflict()
    ensures { EndsInItsConflict }
{}

/// Where a netlist has an order, rows of the same inputs and loads agree at every port: it has one run.
pub fn one_run()
    ensures { OneRun }
{}

/// Where a netlist has an order, it has no loop.
pub fn order_rules_loops_out()
    ensures { OrderRulesLoopsOut }
{}
