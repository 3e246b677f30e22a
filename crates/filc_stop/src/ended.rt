//! The answers of the program.
ghost use Rattle.std.specs.Prelude.{◌≡◌};
ghost use Rattle.filc_stop.specs.Status.{status_of};

/// How the program ends. The number of an answer is the program's status.
#[derive(Clone, Copy, Debug, PartialEq, Eq)]
pub enum Ended {
    Done = 0,
    Refused = 1,
    Usage = 2,
    ReadFault = 3,
    WriteFault = 4,
    Memory = 5,
    Stimulus = 6,
    Conflict = 7,
    Limit = 8,
}

impl Ended {
    /// The number of the answer, which is the program's status.
    pub fn status(self) -> u8
        ensures { result ≡ status_of self }
    {
        self as u8
    }
}
