//! The commands by name, with the words that ask for each.
ghost use Rattle.std.specs.Prelude.{◌≡◌};
ghost use Rattle.filc_core.specs.Request.{shape_of, word_of};

use crate::shape::Designs::{All, In, Sources};
use crate::shape::Shape;
use crate::shape::Shape::{Count, Design, DesignAndCount, DesignAndStimulus};
use filc_stop::Language::{Calyx, Filament, Netlists};

/// A command.
#[derive(Clone, Copy, Debug, PartialEq, Eq)]
pub enum CommandName {
    Check,
    Rows,
    SimNet,
    TraceNet,
    Flow,
    Timeline,
    SimFil,
    TraceFil,
    SimCal,
    TraceCal,
    SchedCal,
    Soak,
    Net,
    Lower,
    Verilog,
}

/// All commands.
pub(crate) const COMMANDS: &[CommandName] = &[
    CommandName::Check,
    CommandName::Rows,
    CommandName::SimNet,
    CommandName::TraceNet,
    CommandName::Flow,
    CommandName::Timeline,
    CommandName::SimFil,
    CommandName::TraceFil,
    CommandName::SimCal,
    CommandName::TraceCal,
    CommandName::SchedCal,
    CommandName::Soak,
    CommandName::Net,
    CommandName::Lower,
    CommandName::Verilog,
];

impl CommandName {
    /// The words that ask for it.
    pub(crate) fn key(self) -> (&'static str, Shape)
        ensures word { result.0.now ≡ word_of self }
        ensures shape { result.1 ≡ shape_of self }
    {
        match self {
            CommandName::Check => ("check", Design(All)),
            CommandName::Rows => ("rows", DesignAndCount(In(Netlists))),
            CommandName::SimNet => ("sim", DesignAndStimulus(In(Netlists))),
            CommandName::TraceNet => ("trace", DesignAndStimulus(In(Netlists))),
            CommandName::Flow => ("flow", DesignAndStimulus(In(Filament))),
            CommandName::Timeline => ("timeline", DesignAndStimulus(In(Filament))),
            CommandName::SimFil => ("sim", DesignAndStimulus(In(Filament))),
            CommandName::TraceFil => ("trace", DesignAndStimulus(In(Filament))),
            CommandName::SimCal => ("sim", DesignAndStimulus(In(Calyx))),
            CommandName::TraceCal => ("trace", DesignAndStimulus(In(Calyx))),
            CommandName::SchedCal => ("sched", DesignAndStimulus(In(Calyx))),
            CommandName::Soak => ("soak", Count),
            CommandName::Net => ("net", Design(Sources)),
            CommandName::Lower => ("lower", Design(Sources)),
            CommandName::Verilog => ("verilog", Design(All)),
        }
    }
}
