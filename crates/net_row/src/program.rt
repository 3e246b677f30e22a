//! A netlist compiled to steps over slots.
use net_steps::{Choice, Clash, Equality, Places, Run};

/// A netlist compiled to steps over slots: one for each value that is kept, then one for each input, then one for each step.
#[derive(Drop)]
pub struct Program {
    /// The slot of each port.
    pub ports: Vec<u32>,
    /// The slots of the inputs of each cell that keeps its state by itself.
    pub places: Vec<Places>,
    /// The slot of what each kept value is after a row.
    pub next: Vec<u32>,
    /// The steps, in runs of one kind.
    pub runs: Vec<Run>,
    /// The table of choices that steps are made of.
    pub choices: Vec<Choice>,
    pub clashes: Vec<Clash>,
    /// What holds in the rows that it is for; nothing where it is for any row.
    pub assumed: Vec<Equality>,
}
