//! Laws of a program's transactions: what they are at the ports of their component.
ghost use Rattle.fil_share.specs.Carried.{TransactionsAreLegal, TransactionsHaveOwnValues, TransactionsKeepFlow};

/// Transactions whose starts are legal are a legal list at the ports, which asks for no order.
pub fn transactions_are_legal()
    ensures { TransactionsAreLegal }
{}

/// A transaction gives no values to inputs of other events.
pub fn transactions_have_own_values()
    ensures { TransactionsHaveOwnValues }
{}

/// What a transaction computes is the flow that its component promises, at the outputs of the transaction's event.
pub fn transactions_keep_flow()
    ensures { TransactionsKeepFlow }
{}
