//! What the files of a command give: a design by its language, a stimulus for it; or why they give nothing.
//!
//! In: a file's name, and the files. Out: a design that is read, judged and light enough (`Built` for a netlist, `FilBuilt`,
//! `CalBuilt`), a stimulus that fits it, or the `Stop` with the first cause, in this order: the file cannot be read; it is too long; no token
//! starts at a byte; it nests too deep; the grammar refuses a byte; an offset is too large; a rule is broken; it weighs too much, or has too many words.
//!
//!     counter.net   ->  the netlist, its table of ports and their order
//!     adder.fil     ->  the design's tree, and its top component
//!     adder.futil   ->  the design's tree, and its top component
//!     adder.json    ->  rows of inputs for a netlist or a Calyx design, transactions for a Filament design
//!
//! `source` reads whole files and keeps their limits; `net_file`, `fil_file` and `cal_file` go through a language's reader and
//! checker; `stimulus` reads a stimulus against the ports of a design (`ports`, `settable`).
//!
//! What the layer above uses: `load` of each language is `Ok` exactly where the file gives a design (`FileGivesFil` and its
//! like), and then the design is ready for what comes (`IsFilReady`); else its stop is the first cause.
#![tactic(auto)]

mod accepted;
pub mod cal_file;
pub mod fil_file;
mod made;
pub mod net_file;
mod ports;
mod settable;
mod source;
pub mod stimulus;
mod top;

pub use accepted::accept;
pub use cal_file::CalBuilt;
pub use fil_file::FilBuilt;
pub use made::{make_ready, table_of};
pub use net_file::Built;
pub use ports::name_of;
