//! Stimuli: what drives a run, as JSON says it.
//!
//! In: the bytes of a stimulus, and what it may speak of: the inputs and the observable memories of a netlist, or the signature
//! of a Filament component. Out: what a run is given (`CycleList`, `TxList`), or why there is none (`StimEnd`): the first of the
//! rules S1 to S7 that is broken, with its entry, or the limit that is passed; of runs side by side with its run too (`RunsEnd`).
//!
//!     { "version": 1, "cycles": 6,                            6 cycles
//!       "inputs": [{"from": 1, "set": {"at": 1}},             from row 1 on  at = 1
//!                  {"from": 5, "set": {"at": 2}}],            from row 5 on  at = 2
//!       "memories": {"table": [10, 20, 30]} }                 words 0 to 2 of  table
//!
//!     { "version": 1, "runs": [                               two runs side by side, each with
//!       {"cycles": 6, "inputs": []},                          what drives it alone
//!       {"cycles": 2, "inputs": [{"from": 0, "set": {"at": 3}}]}]}
//!
//!     { "version": 1, "transactions": [                       a transaction that starts in row 0, with
//!       {"start": 0, "inputs": {"a": 2, "b": 3, "c": 1}}]}    a value for each data input of its event
//!
//! How it goes: `serde_json` reads the bytes to a JSON value (S1); `cycle_text`, `runs_text` and `tx_text` say which stimulus that
//! is, if it is one (S2). Then the limit `MOST_TRANSACTIONS` is judged, for cycles `MOST_CYCLES` too, and the other rules entry by entry (for transactions
//! `MOST_CYCLES` comes last): for cycles in `cycle_inputs` and `cycle_memories`, else in `tx_values` and `tx_starts`, where a `repeat` is written out.
//!
//! What the layer above uses: `read_cycles` gives what the bytes say, of a stimulus that keeps the rules and the limits
//! (`GiveRun`), and it fits the inputs and memories (`FitsRun`). `read_runs` does so for up to eight runs side by side (`GiveRuns`),
//! of which the limits are judged together and the rules run by run. `read_txs` does so for transactions (`GiveTransactions`),
//! which fit the signature (`FitsSignature`) and are legal by its delays (`AreLegal`). Else the cause is the first (`IsCause`,
//! `IsRunsCause`, `IsTxCause`). `run_rows_of` is the number of rows that transactions take.
#![tactic(auto)]

mod amounts;
mod cycle_inputs;
mod cycle_memories;
mod cycle_text;
mod cycles;
mod events;
mod given;
mod places;
mod runs;
mod runs_end;
mod runs_text;
mod stim_end;
mod tx_starts;
mod tx_text;
mod tx_values;
mod txs;

pub use cycles::read_cycles;
pub use runs::read_runs;
pub use runs_end::RunsEnd;
pub use runs_text::MOST_RUNS;
pub use stim_end::StimEnd;
pub use txs::{read_txs, run_rows_of};
