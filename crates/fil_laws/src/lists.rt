//! Legal lists can be given.
ghost use Rattle.fil_laws.specs.Lists.{LegalListsCanBeGiven};

/// For each legal list of transactions of a component there are inputs that carry it, in as many rows as are asked.
pub fn legal_lists_can_be_given()
    ensures { LegalListsCanBeGiven }
{}
