//! Why a command stops before its report is whole, and the line that says so.
ghost use Rattle.std.specs.Prelude.{◌≡◌, ◌≤◌, OnOk, OnErr};
ghost use Rattle.std.specs.Io.KnownBytes.{Appends};
ghost use Rattle.hw_io.specs.Faults.{Rose};
ghost use Rattle.hw_io.specs.Writing.{AppendsPrefix};
ghost use Rattle.filc_stop.specs.Lines.{as_line};
ghost use Rattle.filc_stop.specs.Stops.{ended_of, untold_of, line_of, IsTold};

use crate::ended::Ended;
use crate::line::write_read_fault;
use crate::refusal::Refusal;
use hw_bits::Memory;
use hw_io::{Failed, Sink, write_whole};

/// Why a command stops before its report is whole.
#[derive(Debug, Drop)]
pub enum Stop {
    /// The file of the design isn't known, or its count of faults rose.
    ReadFault,
    /// The file of the stimulus isn't known, or its count of faults rose.
    StimulusReadFault,
    /// What is asked for is refused, or its run ends early.
    Refused(Refusal),
    /// The report couldn't be written.
    WriteFault,
    /// There was no memory.
    Memory,
}

impl From<Memory> for Stop {
    ghost use Rattle.std.specs.Prelude.{◌≡◌};
    ghost use Rattle.filc_stop.specs.declared.stop.Stop.TheVariants as stop;

    ghost from_gives = { λ _ why. why ≡ stop.Memory };

    fn from(_memory: Memory) -> Stop {
        Stop::Memory
    }
}

impl From<Failed> for Stop {
    ghost use Rattle.std.specs.Prelude.{◌≡◌};
    ghost use Rattle.filc_stop.specs.declared.stop.Stop.TheVariants as stop;

    ghost from_gives = { λ _ why. why ≡ stop.WriteFault };

    fn from(_failed: Failed) -> Stop {
        Stop::WriteFault
    }
}

impl Stop {
    /// The answer, once the line is written.
    fn ended(&self) -> Ended
        ensures { result ≡ ended_of self.now }
    {
        match self {
            Stop::ReadFault | Stop::StimulusReadFault => Ended::ReadFault,
            Stop::Refused(refusal) => refusal.answer(),
            Stop::WriteFault => Ended::WriteFault,
            Stop::Memory => Ended::Memory,
        }
    }

    /// The answer where the line couldn't be written: want of memory stays.
    fn ended_untold(&self) -> Ended
        ensures { result ≡ untold_of self.now }
    {
        match self {
            Stop::Memory => Ended::Memory,
            _ => Ended::WriteFault,
        }
    }

    /// Writes the line of a command that stopped so, and that reads a design's file and a stimulus of these names.
    fn write_line<E: Sink>(&self, design: &str, stimulus: &str, err: &mut E) -> Result<(), Failed>
        ensures appended { OnOk result (Appends (E.written err.old) (E.written err.new) (as_line (line_of design.now stimulus.now self.now))) }
        ensures prefix { OnErr result (AppendsPrefix (E.written err.old) (E.written err.new) (as_line (line_of design.now stimulus.now self.now))) }
        ensures failed { OnErr result (Rose (E.faults err.old) (E.faults err.new)) }
        ensures never_falls { E.faults err.old ≤ E.faults err.new }
    {
        match self {
            Stop::ReadFault => write_read_fault(err, design),
            Stop::StimulusReadFault => write_read_fault(err, stimulus),
            Stop::Refused(refusal) => refusal.write_line(err),
            Stop::WriteFault => Ok(()),
            Stop::Memory => write_whole(err, "out of memory\n".as_bytes()),
        }
    }

    /// Writes the line of a command that stopped so, and that reads a design's file and a stimulus of these names (without
    /// bytes where it reads none), and gives the answer: `WriteFault` where the line can't be written, but want of
    /// memory stays.
    pub fn tell<E: Sink>(&self, design: &str, stimulus: &str, err: &mut E) -> Ended
        ensures told { IsTold design.now stimulus.now self.now result (E.written err.old) (E.written err.new) (Rose (E.faults err.old) (E.faults err.new)) }
        ensures never_falls { E.faults err.old ≤ E.faults err.new }
    {
        match self.write_line(design, stimulus, err) {
            Ok(()) => self.ended(),
            Err(Failed) => self.ended_untold(),
        }
    }
}
