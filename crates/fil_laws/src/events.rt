//! Events don't feed one another.
ghost use Rattle.fil_laws.specs.Events.{EventsStayApart, GivenListsStayAlike, OtherInputsAreFree, OwnValuesSuffice};

/// Inputs that agree on an event give outputs that agree on it.
pub fn events_stay_apart()
    ensures { EventsStayApart }
{}

/// What a transaction computes is what the flow gives with any values at inputs of other events.
pub fn other_inputs_are_free()
    ensures { OtherInputsAreFree }
{}

/// Transactions that differ in values for inputs of other events alone give the instance at each path such transactions.
pub fn given_lists_stay_alike()
    ensures { GivenListsStayAlike }
{}

/// A netlist that carries legal lists with values for their own events alone carries every legal list.
pub fn own_values_suffice()
    ensures { OwnValuesSuffice }
{}
