//! The starts of an event: the rule S5, and the transactions.
ghost use Rattle.std.specs.Prelude.{◌≡◌, ◌++◌, length, map, IfOk, OnOk};
ghost use Rattle.hw_bits.specs.Values.{values_of, widths_of};
ghost use Rattle.stim_read.specs.TxText.{tx_entry_seen};
ghost use Rattle.stim_read.specs.TxRun.{Transaction, transaction_seen};
ghost use Rattle.stim_read.specs.inside.TxWalk.{IsEntry, start_rows, starts_fault, last_after, started, start_fault};
ghost use Rattle.stim_read.specs.inside.Walk.{Tells};

use crate::stim_end::StimEnd;
use crate::tx_text::TxEntry;
use fil_ast::Tx;
use hw_bits::Bits;
use std::alloc::Global;

/// Judges by S5 a start of an event after the last one of that event.
fn check_order(before: Option<u64>, entry: u64, delay: u64, start: u64) -> Result<(), StimEnd>
    ensures { Tells result (start_fault before entry delay start) }
{
    match before {
        Some(first) if u128::from(start) < u128::from(first) + u128::from(delay) => {
            Err(StimEnd::Refused {
                rule: 5,
                entry,
                first,
                second: start,
                delay,
            })
        }
        _ => Ok(()),
    }
}

/// Puts the starts of an entry last, all with these values; gives the last start of the event after them.
pub(crate) fn push_starts(
    alloc: Global,
    entry: &TxEntry,
    event: u8,
    delay: u64,
    before: Option<u64>,
    values: &[Bits],
    txs: &mut Vec<Tx>,
) -> Result<Option<u64>, StimEnd>
    requires { IsEntry (tx_entry_seen entry.now) }
    ensures told { Tells result (starts_fault before (length txs.old.items) delay (start_rows (tx_entry_seen entry.now))) }
    ensures last { IfOk result (λ last. last ≡ last_after before (start_rows (tx_entry_seen entry.now))) }
    ensures pushed { OnOk result (map transaction_seen txs.new.items
        ≡ map transaction_seen txs.old.items ++ map (started event (values_of values.now) (widths_of values.now)) (start_rows (tx_entry_seen entry.now))) }
{
    let mut last = before;
    for k in 0..entry.repeat.times {
        let start = entry.start + k * entry.repeat.every;
        check_order(last, txs.len() as u64, delay, start)?;
        last = Some(start);
        let values = Vec::from_slice(alloc, values)?;
        txs.push(Tx {
            event,
            start,
            values,
        })?;
    }
    Ok(last)
}
