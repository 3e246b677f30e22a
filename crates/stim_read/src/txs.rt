//! Stimuli of transactions.
ghost use Rattle.std.specs.Prelude.{◌≡◌, ◌≤◌, ◌++◌, [], None, length, map, set, replicate, slice_get, All, IfOk, IfErr, OnOk};
ghost use Rattle.hw_bits.specs.declared.bits.TheConstants.{MAX_WIDTH};
ghost use Rattle.hw_names.specs.Name.{AreDistinct};
ghost use Rattle.fil_ast.specs.Signature.{SigPort};
ghost use Rattle.fil_sig.specs.Seen.{seen};
ghost use Rattle.stim_read.specs.TxText.{tx_entry_seen, transactions_seen};
ghost use Rattle.stim_read.specs.TxEvents.{event_names, port_targets, events_of, event_seen, events_seen, HasFixedDelay};
ghost use Rattle.stim_read.specs.TxRules.{starts_of, starts_in, event_number};
ghost use Rattle.stim_read.specs.inside.TxWalk.{IsEntry, HasWidths, AreUsable, start_rows, last_after, last_by, entry_fault, txs_fault, count_fault, rows_fault, transactions_fault};
ghost use Rattle.stim_read.specs.TxRun.{count_of, end_of, run_rows, transaction_of, tx_run_of, transaction_seen, tx_run_seen, SayTransactions, GiveTransactions, IsNoTransactions, IsTxCause};
ghost use Rattle.stim_read.specs.inside.Walk.{Tells};
ghost use Rattle.stim_read.specs.Fits.{AreLegal, FitsSignature};

use crate::cycles::read_value;
use crate::events::{EventInputs, Events};
use crate::stim_end::{StimEnd, refused};
use crate::tx_starts::push_starts;
use crate::tx_text::{TxEntry, TxText, read_tx_text};
use crate::tx_values::input_values;
use fil_ast::{Tx, TxList};
use fil_sig::TimeSig;
use hw_bits::Memory;
use hw_limits::{MOST_CYCLES, MOST_TRANSACTIONS};
use std::alloc::Global;

/// The stimulus of transactions that a text says.
fn read_text(alloc: Global, bytes: &[u8]) -> Result<TxText, StimEnd>
    ensures text { IfOk result (λ text. SayTransactions bytes.now (transactions_seen text)) }
    ensures cause { IfErr result (IsNoTransactions bytes.now) }
{
    let value = read_value(alloc, bytes)?;
    let Some(text) = read_tx_text(alloc, &value)? else {
        return Err(refused(2, 0));
    };
    Ok(text)
}

/// How many transactions the entries stand for, before they are written out; it saturates.
fn count_of(entries: &[TxEntry]) -> u64
    ensures { result ≡ count_of (map tx_entry_seen entries.now) }
{
    let mut count: u64 = 0;
    for entry in entries {
        count = count.saturating_add(entry.repeat.times);
    }
    count
}

/// Judges the number of transactions.
fn check_count(count: u64) -> Result<(), StimEnd>
    ensures { Tells result (count_fault count) }
{
    if count > MOST_TRANSACTIONS {
        return Err(StimEnd::Limit {
            count,
            limit: MOST_TRANSACTIONS,
            cycles: false,
        });
    }
    Ok(())
}

/// Judges an entry, and puts its transactions last; `last` has the last start of each event.
fn push_entry(
    alloc: Global,
    events: &Events,
    entry: &TxEntry,
    last: &mut [Option<u64>],
    txs: &mut Vec<Tx>,
) -> Result<(), StimEnd>
    requires events { AreUsable (events_seen events.now) }
    requires entry { IsEntry (tx_entry_seen entry.now) }
    requires last { length last.old ≡ length events.now.inputs.items }
    ensures told { Tells result (entry_fault (events_seen events.now) last.old (length txs.old.items) (tx_entry_seen entry.now)) }
    ensures last { OnOk result (last.new ≡ set last.old (event_number events.now.names entry.now.event)
        (last_after (last_by (events_seen events.now) last.old (tx_entry_seen entry.now)) (start_rows (tx_entry_seen entry.now)))) }
    ensures pushed { OnOk result (map transaction_seen txs.new.items
        ≡ map transaction_seen txs.old.items ++ map (transaction_of (events_seen events.now)) (starts_of (tx_entry_seen entry.now))) }
{
    let number = txs.len() as u64;
    let Some(place) = events.number(&entry.event) else {
        return Err(refused(3, number));
    };
    let event = &events.inputs[place];
    let values = input_values(alloc, event, number, &entry.given)?;
    last[place] = push_starts(
        alloc,
        entry,
        place as u8,
        event.delay,
        last[place],
        &values,
        txs,
    )?;
    Ok(())
}

/// No last start of so many events.
fn no_starts(alloc: Global, count: usize) -> Result<Vec<Option<u64>>, Memory>
    ensures { IfOk result (λ last. last.items ≡ replicate count None) }
{
    let mut last = Vec::new(alloc);
    for _event in 0..count {
        last.push(None)?;
    }
    Ok(last)
}

/// The transactions that entries stand for; else the first rule that is broken.
fn transactions(alloc: Global, events: &Events, entries: &[TxEntry]) -> Result<Vec<Tx>, StimEnd>
    requires events { AreUsable (events_seen events.now) }
    requires entries { All IsEntry (map tx_entry_seen entries.now) }
    ensures told { Tells result (txs_fault (events_seen events.now) [] 0 (starts_in (map tx_entry_seen entries.now))) }
    ensures pushed { IfOk result (λ txs. map transaction_seen txs.items ≡ map (transaction_of (events_seen events.now)) (starts_in (map tx_entry_seen entries.now))) }
{
    let mut txs = Vec::new(alloc);
    let mut last = no_starts(alloc, events.inputs.len())?;
    for entry in entries {
        push_entry(alloc, events, entry, &mut last, &mut txs)?;
    }
    Ok(txs)
}

/// The greatest end among the intervals of an event's ports.
fn end_of(events: &[EventInputs], event: u8) -> u64
    ensures { result ≡ end_of (slice_get (map event_seen events.now) event) }
{
    match events.get(usize::from(event)) {
        Some(event) => event.end,
        None => 0,
    }
}

/// How many rows a run has: the last transaction ends there; it saturates.
fn run_rows(events: &[EventInputs], txs: &[Tx]) -> u64
    ensures { result ≡ run_rows (map event_seen events.now) (map transaction_seen txs.now) }
{
    let mut rows: u128 = 0;
    for tx in txs {
        rows = rows.max(u128::from(tx.start) + u128::from(end_of(events, tx.event)));
    }
    u64::try_from(rows).unwrap_or(u64::MAX)
}

/// Judges the number of rows.
fn check_rows(rows: u64) -> Result<(), StimEnd>
    ensures { Tells result (rows_fault rows) }
{
    if rows > MOST_CYCLES {
        return Err(StimEnd::Limit {
            count: rows,
            limit: MOST_CYCLES,
            cycles: true,
        });
    }
    Ok(())
}

/// What a stimulus gives to a component with these events; else the first limit or rule that it does not keep.
fn judge(alloc: Global, events: &Events, text: TxText) -> Result<TxList, StimEnd>
    requires events { AreUsable (events_seen events.now) }
    requires entries { All IsEntry (transactions_seen text).entries }
    ensures told { Tells result (transactions_fault (events_seen events.now) (transactions_seen text)) }
    ensures run { IfOk result (λ list. tx_run_seen list ≡ tx_run_of (events_seen events.now) (transactions_seen text)) }
{
    check_count(count_of(&text.entries))?;
    let txs = transactions(alloc, events, &text.entries)?;
    check_rows(run_rows(&events.inputs, &txs))?;
    Ok(TxList {
        txs,
        idle: text.idle,
    })
}

/// The transactions that a stimulus gives to a component with this signature, whose delays are fixed, whose
/// events' and inputs' names differ, and whose widths are 1 to 128 bits. It refuses a text that breaks one of
/// the rules S1 to S6, or that has more transactions or rows than the limits; any call may find no memory.
pub fn read_txs(alloc: Global, bytes: &[u8], sig: &TimeSig) -> Result<TxList, StimEnd>
    requires events { AreDistinct (event_names (seen sig.now)) }
    requires inputs { AreDistinct (port_targets (seen sig.now).ins).names }
    requires fixed { All HasFixedDelay (seen sig.now).events }
    requires few { length (seen sig.now).events ≤ 256 }
    requires widths { All (λ (p : SigPort). (1 ≤ p.width) × (p.width ≤ MAX_WIDTH)) (seen sig.now).ins }
    ensures run { IfOk result (λ list. GiveTransactions bytes.now (events_of (seen sig.now)) (tx_run_seen list)) }
    ensures fits { IfOk result (λ list. All (FitsSignature (seen sig.now)) list.txs.items) }
    ensures legal { IfOk result (λ list. AreLegal (seen sig.now) (map transaction_seen list.txs.items)) }
    ensures cause { IfErr result (IsTxCause bytes.now (events_of (seen sig.now))) }
{
    let text = read_text(alloc, bytes)?;
    let events = Events::of(alloc, sig)?;
    judge(alloc, &events, text)
}

/// How many rows a run of these transactions has: the last of their intervals ends there.
pub fn run_rows_of(alloc: Global, sig: &TimeSig, txs: &[Tx]) -> Result<u64, Memory>
    requires events { AreDistinct (event_names (seen sig.now)) }
    requires inputs { AreDistinct (port_targets (seen sig.now).ins).names }
    ensures { IfOk result (λ rows. rows ≡ run_rows (events_of (seen sig.now)).events (map transaction_seen txs.now)) }
{
    let events = Events::of(alloc, sig)?;
    Ok(run_rows(&events.inputs, txs))
}
