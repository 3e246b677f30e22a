//! Stimuli of cycles side by side, as their JSON value says them.
ghost use Rattle.std.specs.Prelude.{◌≡◌, map, IfOk, option_map};
ghost use Rattle.serde_json.specs.View.{view};
ghost use Rattle.stim_read.specs.Parts.{each};
ghost use Rattle.stim_read.specs.CycleText.{cycles_seen};
ghost use Rattle.stim_read.specs.RunsText.{run_in, run_list_in, runs_in, runs_seen};

use crate::amounts::{Version, read_version};
use crate::cycle_text::{CycleText, read_cycles_by};
use crate::given::is_object_of;
use hw_bits::Memory;
use serde_json::Value;
use std::alloc::Global;

/// The most runs of a stimulus.
pub const MOST_RUNS: usize = 8;

/// A run: a stimulus of cycles without its version.
fn read_run(alloc: Global, version: Version, value: &Value) -> Result<Option<CycleText>, Memory>
    ensures { IfOk result (λ o. option_map cycles_seen o ≡ run_in version (view value.now)) }
{
    if !is_object_of(value, &["cycles", "inputs", "memories"]) {
        return Ok(None);
    }
    read_cycles_by(alloc, version, value)
}

/// Each run of a list.
fn read_each_run(
    alloc: Global,
    version: Version,
    values: &[Value],
) -> Result<Option<Vec<CycleText>>, Memory>
    ensures { IfOk result (λ o. option_map (λ v. runs_seen v.items) o ≡ each (run_in version) (map view values.now)) }
{
    let mut runs = Vec::new(alloc);
    for value in values {
        let Some(run) = read_run(alloc, version, value)? else {
            return Ok(None);
        };
        runs.push(run)?;
    }
    Ok(Some(runs))
}

/// The runs of a list that has some, and not too many.
fn read_run_list(
    alloc: Global,
    version: Version,
    values: &[Value],
) -> Result<Option<Vec<CycleText>>, Memory>
    ensures { IfOk result (λ o. option_map (λ v. runs_seen v.items) o ≡ run_list_in version (map view values.now)) }
{
    if values.is_empty() || values.len() > MOST_RUNS {
        return Ok(None);
    }
    read_each_run(alloc, version, values)
}

/// A stimulus of runs.
pub(crate) fn read_runs_text(alloc: Global, value: &Value) -> Result<Option<Vec<CycleText>>, Memory>
    ensures { IfOk result (λ o. option_map (λ v. runs_seen v.items) o ≡ runs_in (view value.now)) }
{
    if !is_object_of(value, &["version", "runs"]) {
        return Ok(None);
    }
    let Some(version) = read_version(value) else {
        return Ok(None);
    };
    let Some(runs) = value.get("runs") else {
        return Ok(None);
    };
    match runs.as_array() {
        Some(values) => read_run_list(alloc, version, values),
        None => Ok(None),
    }
}
