//! Laws of the verdict, from its parts to the whole.
ghost use Rattle.filc_laws.specs.Existence.{VerdictsExist, PlainVerdictsExist, ReportsExist};
ghost use Rattle.filc_laws.specs.OneAnswer.{OneAnswer};
ghost use Rattle.filc_laws.specs.OneCost.{CalWeightIsOne, CalWordsAreOne};
ghost use Rattle.filc_laws.specs.OneOutcome.{RunIsOne};
ghost use Rattle.filc_laws.specs.OnePlace.{FilPlaceIsOne, RefusedFilSpellsNone, CalPlaceIsOne, RefusedCalSpellsNone, NetPlaceIsOne};
ghost use Rattle.filc_laws.specs.OneRule.{FilRefusalIsOne, RefusedDesignBreaksRules, CalRefusalIsOne, RefusedCalBreaksRules, NetRuleIsOne, BrokenNetIsNotValid, LeastPortIsOne};
ghost use Rattle.filc_laws.specs.OneRun.{RowsAreOne};
ghost use Rattle.filc_laws.specs.OneSource.{NetIsGivenOnce, FilIsGivenOnce, CalIsGivenOnce, SourceIsRefusedOnce, RefusedSourceIsNotAccepted};
ghost use Rattle.filc_laws.specs.OneStimulus.{RunIsGivenOnce, RunCauseIsOne, GivenRunHasNoCause, RunIsRefusedOnce, TransactionsAreGivenOnce, TransactionCauseIsOne, GivenTransactionsHaveNoCause, TransactionsAreRefusedOnce};
ghost use Rattle.filc_laws.specs.OneVerdict.{OneVerdict, OneReport};
ghost use Rattle.filc_laws.specs.OnlyWhatIsTold.{OnlyWhatIsTold};

/// Rows of one run of a netlist that keeps N1 to N6 agree at every port.
pub fn rows_are_one()
    ensures { RowsAreOne }
{}

/// One thing comes of a run that is printed.
pub fn run_is_one()
    ensures { RunIsOne }
{}

/// A Filament text is refused at one byte, whatever numbers its names have.
pub fn fil_place_is_one()
    ensures { FilPlaceIsOne }
{}

/// A Filament text that its grammar refuses spells no design, whatever numbers its names have.
pub fn refused_fil_spells_none()
    ensures { RefusedFilSpellsNone }
{}

/// A Calyx text is refused at one byte, whatever numbers its names have, and there for a word that is left out or for none.
pub fn cal_place_is_one()
    ensures { CalPlaceIsOne }
{}

/// A Calyx text that its grammar refuses spells no design, whatever numbers its names have.
pub fn refused_cal_spells_none()
    ensures { RefusedCalSpellsNone }
{}

/// The text of a netlist is refused at one byte.
pub fn net_place_is_one()
    ensures { NetPlaceIsOne }
{}

/// The first broken rule of a design is one, with its place, and with what it shows but for which loop that is.
pub fn fil_refusal_is_one()
    ensures { FilRefusalIsOne }
{}

/// A design with a first broken rule doesn't keep F1 to F14.
pub fn refused_design_breaks_rules()
    ensures { RefusedDesignBreaksRules }
{}

/// The first broken rule of a Calyx design is one, with its place, and with what it shows but for which loop that is.
pub fn cal_refusal_is_one()
    ensures { CalRefusalIsOne }
{}

/// A Calyx design with a first broken rule doesn't keep C1 to C12.
pub fn refused_cal_breaks_rules()
    ensures { RefusedCalBreaksRules }
{}

/// What a Calyx design weighs is one number.
pub fn cal_weight_is_one()
    ensures { CalWeightIsOne }
{}

/// How many words the memories of a Calyx design have is one number.
pub fn cal_words_are_one()
    ensures { CalWordsAreOne }
{}

/// The first of N1 to N5 that a netlist breaks is one, and so is its line.
pub fn net_rule_is_one()
    ensures { NetRuleIsOne }
{}

/// A netlist with a first broken rule doesn't keep N1 to N5.
pub fn broken_net_is_not_valid()
    ensures { BrokenNetIsNotValid }
{}

/// The least loops of a netlist begin with one port.
pub fn least_port_is_one()
    ensures { LeastPortIsOne }
{}

/// A file gives at most one netlist.
pub fn net_is_given_once()
    ensures { NetIsGivenOnce }
{}

/// A file gives at most one Filament design.
pub fn fil_is_given_once()
    ensures { FilIsGivenOnce }
{}

/// A file gives at most one Calyx design.
pub fn cal_is_given_once()
    ensures { CalIsGivenOnce }
{}

/// A file that is refused is so with one answer and one line, but for which loop that tells.
pub fn source_is_refused_once()
    ensures { SourceIsRefusedOnce }
{}

/// A file that is refused is not accepted.
pub fn refused_source_is_not_accepted()
    ensures { RefusedSourceIsNotAccepted }
{}

/// A stimulus gives a netlist at most one run.
pub fn run_is_given_once()
    ensures { RunIsGivenOnce }
{}

/// A stimulus that gives a netlist no run has one cause.
pub fn run_cause_is_one()
    ensures { RunCauseIsOne }
{}

/// A stimulus that gives a netlist a run has no cause.
pub fn given_run_has_no_cause()
    ensures { GivenRunHasNoCause }
{}

/// It is refused with one answer and one line.
pub fn run_is_refused_once()
    ensures { RunIsRefusedOnce }
{}

/// A stimulus gives a component at most one list of transactions.
pub fn transactions_are_given_once()
    ensures { TransactionsAreGivenOnce }
{}

/// A stimulus that gives a component no transactions has one cause.
pub fn transaction_cause_is_one()
    ensures { TransactionCauseIsOne }
{}

/// A stimulus that gives a component transactions has no cause.
pub fn given_transactions_have_no_cause()
    ensures { GivenTransactionsHaveNoCause }
{}

/// It is refused with one answer and one line.
pub fn transactions_are_refused_once()
    ensures { TransactionsAreRefusedOnce }
{}

/// Two verdicts of the same words and contents have one answer, one report and one line, but for which loop is told and
/// which netlist or which Calyx design is made.
pub fn one_verdict()
    ensures { OneVerdict }
{}

/// Where what is made has the same text, the reports are the same to the byte.
pub fn one_report()
    ensures { OneReport }
{}

/// A verdict is of what the files tell that the words ask for: where other contents tell the same of these, it is a verdict too.
pub fn only_what_is_told()
    ensures { OnlyWhatIsTold }
{}

/// Two programs that keep the contract of the top call answer alike, and leave the same in their sinks, but for which loop is
/// told and which netlist or which Calyx design is made.
pub fn one_answer()
    ensures { OneAnswer }
{}

/// Told files have a verdict, where a design can be made wherever what is asked for is granted.
pub fn verdicts_exist()
    ensures { VerdictsExist }
{}

/// Told files have a verdict, where what is asked for makes no design.
pub fn plain_verdicts_exist()
    ensures { PlainVerdictsExist }
{}

/// Whichever text of a design a request may make, something comes of it with that text.
pub fn reports_exist()
    ensures { ReportsExist }
{}
