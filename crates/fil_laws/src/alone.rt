//! A component by itself: over instances that keep their promises it keeps its own.
ghost use Rattle.fil_laws.specs.Alone.{ComponentsKeepPromises, InstancesCarryTheirs, WiredDesignsKeepPromises};

/// In a run in which each instance keeps its promise and wires do what its body says, a component keeps its own, however its
/// transactions overlap.
pub fn components_keep_promises()
    ensures { ComponentsKeepPromises }
{}

/// And where each row carries a legal list at its inputs, each instance carries what that list gives it.
pub fn instances_carry_theirs()
    ensures { InstancesCarryTheirs }
{}

/// So in a design each component keeps its promise, wherever it stands, where primitives are cells and all wires do so: as in each
/// run of what `lower_fil` makes (`Lowers`).
pub fn wired_designs_keep_promises()
    ensures { WiredDesignsKeepPromises }
{}
