//! Laws of runs that transactions drive.
ghost use Rattle.fil_driven.specs.Laws.{
  TransactionsFit,
  KeepersHavePorts,
  DrivenRunsCarry,
  CarriedRowsAreMeant,
  NothingElseMatters,
};

/// A component's transactions fit its signature.
pub fn transactions_fit()
    ensures { TransactionsFit }
{}

/// A netlist that keeps what a design promises has the ports of its top component.
pub fn keepers_have_ports()
    ensures { KeepersHavePorts }
{}

/// Transactions that drive it are carried: there is no Conflict, and each instance at each path carries what it is given.
pub fn driven_runs_carry()
    ensures { DrivenRunsCarry }
{}

/// What is shown of them is what the source means.
pub fn carried_rows_are_meant()
    ensures { CarriedRowsAreMeant }
{}

/// Outputs depend on their own transaction alone, whatever else is in flight and whatever idle inputs hold.
pub fn nothing_else_matters()
    ensures { NothingElseMatters }
{}
