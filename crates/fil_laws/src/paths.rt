//! What a legal list gives the instance at each path, by the source alone.
ghost use Rattle.fil_laws.specs.Paths.{
  EachInstanceIsGiven,
  GivenListsAreLegal,
  NothingIsHeldTwice,
  PromisesAgree,
  RowsAreOfOneTransaction,
  WhatIsGivenIsOne,
};

/// The instance at each path is given something.
pub fn each_instance_is_given()
    ensures { EachInstanceIsGiven }
{}

/// It is given one list, for one promise.
pub fn what_is_given_is_one()
    ensures { WhatIsGivenIsOne }
{}

/// What a legal list gives the instance at a path is legal there.
pub fn given_lists_are_legal()
    ensures { GivenListsAreLegal }
{}

/// No event of the instance is held twice in a row by what it is given.
pub fn nothing_is_held_twice()
    ensures { NothingIsHeldTwice }
{}

/// In each row each of its ports is valid for one transaction at most.
pub fn rows_are_of_one_transaction()
    ensures { RowsAreOfOneTransaction }
{}

/// So what is promised at an output in a row is one value.
pub fn promises_agree()
    ensures { PromisesAgree }
{}
