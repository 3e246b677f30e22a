//! The stimulus of a file, for a netlist or for the top component of a Filament design.
ghost use Rattle.std.specs.Prelude.{◌≡◌, ◌≤◌, IfOk, IfErr, IfSome, IsErrOf, IsSome, List, ℕ, All, Some, length, slice_get};
ghost use Rattle.fil_ast.specs.Holds.{AreLegalStarts};
ghost use Rattle.fil_ast.specs.Tree.{Component, design_of};
ghost use Rattle.fil_share.specs.Uses.{starts_of};
ghost use Rattle.hw_io.specs.Reading.{KeepsFiles, IsReadFault};
ghost use Rattle.net_core.specs.Netlist.{netlist_of};
ghost use Rattle.stim_read.specs.CycleRun.{run_seen};
ghost use Rattle.stim_read.specs.TxRun.{tx_run_seen};
ghost use Rattle.filc_load.specs.Built.{KnowsFile, IsReady, IsFilReady, IsGivenBy, AreGivenBy, FitsNet, FitsComponent, GivesNothing, IsNotGiven};
ghost use Rattle.filc_stop.specs.Stops.{IsOfStimulus};
ghost use Rattle.filc_load.specs.StimulusFile.{GivesRun, GivesTransactions, run_causes, transaction_causes};
ghost use Rattle.hw_limits.specs.declared.limits.TheConstants.{MOST_STIMULUS_BYTES};

use crate::fil_file::FilBuilt;
use crate::net_file::Built;
use crate::settable::{settable_inputs, settable_memories};
use fil_ast::TxList;
use fil_sig::component_signature;
use filc_stop::{Refusal, Stop};
use hw_io::{Files, ReadEnd, read_whole};
use hw_limits::MOST_STIMULUS_BYTES;
use net_core::CycleList;
use std::alloc::Global;
use stim_read::{StimEnd, read_cycles, read_txs};

/// What the stimulus of this file gives to a run of the netlist.
pub fn load_cycles<F: Files>(
    alloc: Global,
    file: &str,
    built: &Built,
    files: &mut F,
) -> Result<CycleList, Stop>
    requires { IsReady built.now }
    ensures files { KeepsFiles F.names F.content F.faults file.now files.old files.new }
    ensures given { IsSome (F.content files.old file.now) → IfOk result (IsGivenBy (F.content files.old) file.now (netlist_of built.now.net)) }
    ensures fits { IfOk result (FitsNet (netlist_of built.now.net)) }
    ensures refused { IsSome (F.content files.old file.now)
        → IfErr result (IsNotGiven (F.content files.old) file.now (λ text. run_causes text (netlist_of built.now.net))) }
    ensures read_fault { IsErrOf result Stop.StimulusReadFault
        → IsReadFault (F.names files.old) file.now (F.faults files.old file.now) (F.faults files.new file.now) }
    ensures known { KnowsFile (F.names files.old) file.now result }
    ensures stops { IfErr result IsOfStimulus }
{
    let text = read(alloc, file, files)?;
    judge_cycles(alloc, &text, built)
}

/// The transactions that the stimulus of this file gives to the top component.
pub fn load_transactions<F: Files>(
    alloc: Global,
    file: &str,
    built: &FilBuilt,
    files: &mut F,
) -> Result<TxList, Stop>
    requires { IsFilReady built.now }
    ensures files { KeepsFiles F.names F.content F.faults file.now files.old files.new }
    ensures given { (c : Component) → slice_get (design_of built.now.design) built.now.top ≡ Some c → IsSome (F.content files.old file.now)
        → IfOk result (AreGivenBy (F.content files.old) file.now c) }
    ensures fits { (c : Component) → slice_get (design_of built.now.design) built.now.top ≡ Some c → IfOk result (λ list. All (FitsComponent c) list.txs.items) }
    ensures legal { (c : Component) → slice_get (design_of built.now.design) built.now.top ≡ Some c → IfOk result (λ list. AreLegalStarts c (starts_of c list.txs.items)) }
    ensures refused { (c : Component) → slice_get (design_of built.now.design) built.now.top ≡ Some c → IsSome (F.content files.old file.now)
        → IfErr result (IsNotGiven (F.content files.old) file.now (λ text. transaction_causes text c)) }
    ensures read_fault { IsErrOf result Stop.StimulusReadFault
        → IsReadFault (F.names files.old) file.now (F.faults files.old file.now) (F.faults files.new file.now) }
    ensures known { KnowsFile (F.names files.old) file.now result }
    ensures stops { IfErr result IsOfStimulus }
{
    let text = read(alloc, file, files)?;
    judge_transactions(alloc, &text, built)
}

/// The whole text of this stimulus.
fn read<F: Files>(alloc: Global, file: &str, files: &mut F) -> Result<Vec<u8>, Stop>
    ensures files { KeepsFiles F.names F.content F.faults file.now files.old files.new }
    ensures within { IfOk result (λ text. length text.items ≤ MOST_STIMULUS_BYTES) }
    ensures read { IfOk result (λ text. IfSome (F.content files.old file.now) (λ content. text.items ≡ content)) }
    ensures refused { IsSome (F.content files.old file.now) → IfErr result (IsNotGiven (F.content files.old) file.now (λ text end. ⊥)) }
    ensures read_fault { IsErrOf result Stop.StimulusReadFault
        → IsReadFault (F.names files.old) file.now (F.faults files.old file.now) (F.faults files.new file.now) }
    ensures known { KnowsFile (F.names files.old) file.now result }
    ensures stops { IfErr result IsOfStimulus }
{
    match read_whole(alloc, files, file, MOST_STIMULUS_BYTES) {
        Ok(text) => Ok(text),
        Err(ReadEnd::Fault) => Err(Stop::StimulusReadFault),
        Err(ReadEnd::TooLong) => Err(Stop::Refused(Refusal::StimulusTooLong)),
        Err(ReadEnd::Memory) => Err(Stop::Memory),
    }
}

/// What the text of a stimulus gives to a run of the netlist.
fn judge_cycles(alloc: Global, text: &[u8], built: &Built) -> Result<CycleList, Stop>
    requires ready { IsReady built.now }
    requires within { length text.now ≤ MOST_STIMULUS_BYTES }
    ensures given { IfOk result (λ list. GivesRun text.now (netlist_of built.now.net) (run_seen list)) }
    ensures fits { IfOk result (FitsNet (netlist_of built.now.net)) }
    ensures refused { IfErr result (GivesNothing (run_causes text.now (netlist_of built.now.net)) text.now) }
    ensures stops { IfErr result IsOfStimulus }
{
    let ins = settable_inputs(alloc, built)?;
    let memories = settable_memories(alloc, &built.net)?;
    match read_cycles(alloc, text, &ins, &memories) {
        Ok(list) => Ok(list),
        Err(end) => Err(stop_of(end)),
    }
}

/// The transactions that the text of a stimulus gives to the top component.
fn judge_transactions(alloc: Global, text: &[u8], built: &FilBuilt) -> Result<TxList, Stop>
    requires ready { IsFilReady built.now }
    requires within { length text.now ≤ MOST_STIMULUS_BYTES }
    ensures given { (c : Component) → slice_get (design_of built.now.design) built.now.top ≡ Some c → IfOk result (λ list. GivesTransactions text.now c (tx_run_seen list)) }
    ensures fits { (c : Component) → slice_get (design_of built.now.design) built.now.top ≡ Some c → IfOk result (λ list. All (FitsComponent c) list.txs.items) }
    ensures legal { (c : Component) → slice_get (design_of built.now.design) built.now.top ≡ Some c → IfOk result (λ list. AreLegalStarts c (starts_of c list.txs.items)) }
    ensures refused { (c : Component) → slice_get (design_of built.now.design) built.now.top ≡ Some c
        → IfErr result (GivesNothing (transaction_causes text.now c) text.now) }
    ensures stops { IfErr result IsOfStimulus }
{
    let design = &built.design;
    let sig = component_signature(alloc, &design.names, &design.comps[built.top])?;
    match read_txs(alloc, text, &sig) {
        Ok(list) => Ok(list),
        Err(end) => Err(stop_of(end)),
    }
}

/// Why a stimulus that ends so gives nothing.
fn stop_of(end: StimEnd) -> Stop
    ensures cause { (text : List ℕ) → length text ≤ MOST_STIMULUS_BYTES → GivesNothing (λ cause. cause ≡ end) text result }
    ensures stops { IsOfStimulus result }
{
    match end {
        StimEnd::Refused {
            rule,
            entry,
            first,
            second,
            delay,
        } => Stop::Refused(Refusal::BreaksStimulusRule {
            rule,
            entry,
            first,
            second,
            delay,
        }),
        StimEnd::Limit {
            count,
            limit,
            cycles,
        } => Stop::Refused(Refusal::StimulusTooLarge {
            count,
            limit,
            cycles,
        }),
        StimEnd::Memory => Stop::Memory,
    }
}
