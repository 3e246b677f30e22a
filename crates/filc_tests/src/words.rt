//! The words of the commands.

/// The words that check the netlist, and those that ask for three of its rows.
pub(crate) const CHECK: &[&str] = &["check", "f.net"];

pub(crate) const ROWS: &[&str] = &["rows", "f.net", "3"];

/// The words that check the Calyx design.
pub(crate) const CHECK_CALYX: &[&str] = &["check", "f.futil"];

/// The words that ask for the netlist of the Filament design.
pub(crate) const NET: &[&str] = &["net", "f.fil"];

/// The words of the commands that run a netlist.
pub(crate) const SIM: &[&str] = &["sim", "f.net", "s.json"];

pub(crate) const TRACE: &[&str] = &["trace", "f.net", "s.json"];

/// The words of the commands that run the netlist of a Filament design.
pub(crate) const SIM_FIL: &[&str] = &["sim", "f.fil", "s.json"];

pub(crate) const TRACE_FIL: &[&str] = &["trace", "f.fil", "s.json"];

/// The words of the commands that tell of transactions.
pub(crate) const FLOW: &[&str] = &["flow", "f.fil", "s.json"];

pub(crate) const TIMELINE: &[&str] = &["timeline", "f.fil", "s.json"];

/// The words that ask for a schedule.
pub(crate) const SCHED: &[&str] = &["sched", "f.futil", "s.json"];
