//! Files and sinks: what the program reads and writes, as two traits, in memory and of the system.
//!
//! In: a file's name, or bytes for a stream. Out: the file's whole content, or that all bytes are written; else a fault.
//!
//!     read_whole of a file of 70,000 bytes, limit 70,000     the content, in pieces of at most PIECE_BYTES
//!     the same with limit 69,999                             TooLong
//!     the same where the second piece fails                  Fault, and the file's count of faults is one more
//!
//! `Files` are known by names, each with a content and a count of faults; a `Sink` has the bytes that were written to it, and
//! such a count. `MemFiles` and `MemSink`, for tests, fail in the calls that they are told. `DiskFiles` reads what a `Disk` opens,
//! each file opened once and read on; `StdSink` writes to a `Write` of std. Both tell what their disk and their stream tell; those of
//! the system tell nothing. A call that a signal interrupts is tried again. `Gather` holds up to `HELD_BYTES` bytes, so that a sink
//! gets few large pieces.
//!
//! What the layer above uses: `read_whole` gives the whole content, where one is told, if it is no longer than the limit, and
//! `TooLong` only where it is longer. `write_whole` and `Gather` bring all bytes into the sink in their order, or at a fault a
//! prefix of them (`Appends`, `AppendsPrefix`, `Passes`). A fault has a cause: the name is not known, or the count of faults rose
//! (`IsReadFault`, `Rose`).
#![tactic(auto)]

mod buffer;
mod disk;
mod disk_files;
mod faults;
mod mem_files;
mod mem_sink;
mod reading;
mod retrying;
mod std_sink;
mod writing;

pub use buffer::{Gather, HELD_BYTES};
pub use disk::Disk;
pub use disk_files::DiskFiles;
pub use faults::Failed;
pub use mem_files::{MemFile, MemFiles};
pub use mem_sink::MemSink;
pub use reading::{Files, PIECE_BYTES, ReadEnd, read_whole};
pub use std_sink::StdSink;
pub use writing::{Sink, write_whole};
