//! What drives a run.
ghost use Rattle.std.specs.Prelude.{◌≡◌};
ghost use Rattle.filc_report.specs.Driving.{txs_of};

use fil_ast::{Tx, TxList};
use fil_sig::TimeSig;
use net_core::CycleList;

/// What drives the inputs of a run.
#[derive(Clone, Copy)]
pub enum Drive<'a> {
    /// A list of what inputs are set to, row by row.
    Cycles(&'a CycleList),
    /// Transactions of a component with this signature.
    Txs(&'a TxList, &'a TimeSig),
}

impl<'a> Drive<'a> {
    /// The transactions; none where a list of cycles drives the run.
    pub(crate) fn txs(self) -> &'a [Tx]
        ensures { result.now ≡ txs_of self.entry }
    {
        match self {
            Drive::Cycles(_) => &[],
            Drive::Txs(list, _) => &list.txs,
        }
    }
}
