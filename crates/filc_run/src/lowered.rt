//! The netlist of a Filament design, ready to be driven by transactions.
ghost use Rattle.std.specs.Prelude.{◌≡◌, IfOk, map, slice_get, Some};
ghost use Rattle.fil_ast.specs.Signature.{component_signature};
ghost use Rattle.fil_ast.specs.Tree.{Component, design_of};
ghost use Rattle.fil_promise.specs.Refines.{Refines};
ghost use Rattle.fil_sig.specs.Seen.{seen};
ghost use Rattle.net_core.specs.Netlist.{netlist_of};
ghost use Rattle.net_guard.specs.Folded.{HasFoldedGuards};
ghost use Rattle.net_text.specs.Names.{HasText};
ghost use Rattle.stim_read.specs.TxRun.{transaction_seen};
ghost use Rattle.filc_load.specs.Built.{IsFilReady, IsReady};
ghost use Rattle.filc_run.specs.Meant.{rows_taken};

use fil_ast::{FilOk, Tx, TxList};
use fil_net::net_of;
use fil_sig::{TimeSig, component_signature};
use filc_load::{Built, FilBuilt, make_ready};
use filc_report::Transactions;
use hw_bits::Memory;
use std::alloc::Global;
use stim_read::run_rows_of;

/// A design's netlist, ready to run, the signature of its top component, and how many rows its transactions take.
#[derive(Drop)]
pub(crate) struct Lowered {
    pub(crate) built: Built,
    pub(crate) sig: TimeSig,
    pub(crate) rows: u64,
}

impl Lowered {
    /// The netlist of a design, for these transactions of its top component.
    pub(crate) fn make(alloc: Global, design: &FilBuilt, txs: &[Tx]) -> Result<Lowered, Memory>
        requires { IsFilReady design.now }
        ensures ready { IfOk result (λ it. IsReady it.built) }
        ensures refines { IfOk result (λ it. Refines (design_of design.now.design) (netlist_of it.built.net)) }
        ensures folded { IfOk result (λ it. HasFoldedGuards (netlist_of it.built.net)) }
        ensures text { IfOk result (λ it. HasText (netlist_of it.built.net)) }
        ensures sig { (c : Component) → slice_get (design_of design.now.design) design.now.top ≡ Some c
            → IfOk result (λ it. seen it.sig ≡ component_signature c) }
        ensures rows { (c : Component) → slice_get (design_of design.now.design) design.now.top ≡ Some c
            → IfOk result (λ it. it.rows ≡ rows_taken c (map transaction_seen txs.now)) }
    {
        let tree = &design.design;
        let sig = component_signature(alloc, &tree.names, &tree.comps[design.top])?;
        let rows = run_rows_of(alloc, &sig, txs)?;
        let net = net_of(alloc, &FilOk::new(tree))?;
        let built = make_ready(alloc, net)?;
        Ok(Lowered { built, sig, rows })
    }

    /// The transactions, for a run of the netlist.
    pub(crate) fn transactions<'a>(&'a self, list: &'a TxList) -> Transactions<'a>
        ensures list { result.list.now ≡ list.now }
        ensures sig { result.sig.now ≡ self.now.sig }
        ensures rows { result.rows ≡ self.now.rows }
    {
        Transactions {
            list,
            sig: &self.sig,
            rows: self.rows,
        }
    }
}
