//! Intervals of rows after the starts of an event. As rows rise, transactions are gone through once.
ghost use Rattle.std.specs.Prelude.{◌≡◌, ◌+◌, nat_le, option_map, Contains, IfSome};
ghost use Rattle.fil_sig.specs.Seen.{seen_port};
ghost use Rattle.stim_read.specs.TxRun.{transaction_seen};
ghost use Rattle.filc_report.specs.Intervals.{port_interval, holding, ArePassed, IsFirstLeft, RiseByEvent};

use fil_ast::Tx;
use fil_sig::SigPort;

/// The rows `[from, to)`, counted from the starts of the event with this number.
#[derive(Clone, Copy, Debug)]
pub(crate) struct Interval {
    pub(crate) event: u8,
    pub(crate) from: u64,
    pub(crate) to: u64,
}

/// Whether so many rows have gone by from a start to a row.
fn have_gone(rows: u64, start: u64, row: u64) -> bool
    ensures { result ≡ nat_le (start + rows) row }
{
    start <= row && rows <= row - start
}

impl Interval {
    /// The interval of a data port.
    pub(crate) fn of(port: &SigPort) -> Interval
        ensures { result ≡ port_interval (seen_port port.now) }
    {
        Interval {
            event: port.from.event,
            from: port.from.plus,
            to: port.to.plus,
        }
    }

    /// The number of the first transaction whose interval has not ended before the row, where those before `next` have ended.
    pub(crate) fn first_left(self, txs: &[Tx], next: usize, row: u64) -> usize
        requires { ArePassed self txs.now next row }
        ensures { IsFirstLeft self txs.now result row }
    {
        let mut next = next;
        while next < txs.len() {
            let tx = &txs[next];
            if tx.event == self.event && !have_gone(self.to, tx.start, row) {
                break;
            }
            next += 1;
        }
        next
    }

    /// The transaction in whose interval the row lies: only the first whose interval has not ended may be it.
    pub(crate) fn holding<'a>(self, txs: &'a [Tx], first: usize, row: u64) -> Option<&'a Tx>
        requires first { IsFirstLeft self txs.now first row }
        requires rise { RiseByEvent txs.now }
        ensures holds { option_map (λ tx. transaction_seen tx.now) result ≡ holding self row txs.now }
        ensures among { IfSome result (λ tx. Contains txs.now tx.now × (self.event ≡ tx.now.event)) }
    {
        match txs.get(first) {
            Some(tx) if have_gone(self.from, tx.start, row) => Some(tx),
            _ => None,
        }
    }
}
