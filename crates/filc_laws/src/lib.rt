//! Laws of the verdict: for the same words and files there is one answer, one report and one line, but for what is left to a
//! program: which of several loops is told, and which netlist or lowered Calyx a design is made to.
//!
//! In and out: nothing that runs. Each function is a law, whose contract is the statement and whose body is empty:
//!
//!     pub fn one_verdict() ensures { OneVerdict } {}
//!
//! Two programs that keep the contract of `filc`, and that both give a verdict on the same words and files, answer alike. The
//! other laws are the steps to it: a text spells one design, a rule is broken first at one place, a stimulus gives one run, a
//! netlist has one run of the same inputs.
//!
//! The laws of existence are the other half: told files have a verdict, so that nothing is said of none.
//!
//! What stands above: the reader of the headline, who learns from it that the definitions leave nothing open that they should
//! say.
#![tactic(auto)]

mod laws;

pub use laws::{
    broken_net_is_not_valid, cal_is_given_once, cal_place_is_one, cal_refusal_is_one,
    cal_weight_is_one, cal_words_are_one, fil_is_given_once, fil_place_is_one, fil_refusal_is_one,
    given_run_has_no_cause, given_transactions_have_no_cause, least_port_is_one, net_is_given_once,
    net_place_is_one, net_rule_is_one, one_answer, one_report, one_verdict, only_what_is_told,
    plain_verdicts_exist, refused_cal_breaks_rules, refused_cal_spells_none,
    refused_design_breaks_rules, refused_fil_spells_none, refused_source_is_not_accepted,
    reports_exist, rows_are_one, run_cause_is_one, run_is_given_once, run_is_one,
    run_is_refused_once, source_is_refused_once, transaction_cause_is_one,
    transactions_are_given_once, transactions_are_refused_once, verdicts_exist,
};
