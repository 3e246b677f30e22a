//! Lines of refusals, written into a sink.
ghost use Rattle.std.specs.Prelude.{◌≤◌, OnOk, OnErr, map};
ghost use Rattle.std.specs.Io.KnownBytes.{Appends};
ghost use Rattle.hw_io.specs.Faults.{Rose};
ghost use Rattle.hw_io.specs.Writing.{AppendsPrefix};
ghost use Rattle.fil_ast.specs.Evidence.{AGap};
ghost use Rattle.fil_check.specs.Least.{evidence_of};
ghost use Rattle.filc_stop.specs.Lines.{as_line, read_fault_line, limit_line, token_line, grammar_line, left_out_line, rule_name, place_text, rule_line, spaced, loop_text, count_text, evidence_text, entry_text, stimulus_text, starts_text, shown_starts, stimulus_line, conflict_line};
ghost use Rattle.filc_stop.specs.Stops.{joined};

use crate::language::Language;
use fil_check::Evidence;
use fil_share::Meet;
use hw_io::{Failed, Sink, write_whole};
use hw_names::Word;
use itoa::Buffer;

/// Writes the texts one after another.
fn write_texts<S: Sink>(sink: &mut S, texts: &[&[u8]]) -> Result<(), Failed>
    ensures appended { OnOk result (Appends (S.written sink.old) (S.written sink.new) (joined texts.now)) }
    ensures prefix { OnErr result (AppendsPrefix (S.written sink.old) (S.written sink.new) (joined texts.now)) }
    ensures failed { OnErr result (Rose (S.faults sink.old) (S.faults sink.new)) }
    ensures never_falls { S.faults sink.old ≤ S.faults sink.new }
{
    for text in texts {
        write_whole(sink, text)?;
    }
    Ok(())
}

/// Writes the line of a file that couldn't be read.
pub(crate) fn write_read_fault<S: Sink>(sink: &mut S, file: &str) -> Result<(), Failed>
    ensures appended { OnOk result (Appends (S.written sink.old) (S.written sink.new) (as_line (read_fault_line file.now))) }
    ensures prefix { OnErr result (AppendsPrefix (S.written sink.old) (S.written sink.new) (as_line (read_fault_line file.now))) }
    ensures failed { OnErr result (Rose (S.faults sink.old) (S.faults sink.new)) }
    ensures never_falls { S.faults sink.old ≤ S.faults sink.new }
{
    let texts = ["read fault: ".as_bytes(), file.as_bytes(), "\n".as_bytes()];
    write_texts(sink, &texts)
}

/// Writes the line of a count that is over its limit.
pub(crate) fn write_limit<S: Sink>(
    sink: &mut S,
    name: &str,
    count: u128,
    limit: u128,
) -> Result<(), Failed>
    ensures appended { OnOk result (Appends (S.written sink.old) (S.written sink.new) (as_line (limit_line name.now count limit))) }
    ensures prefix { OnErr result (AppendsPrefix (S.written sink.old) (S.written sink.new) (as_line (limit_line name.now count limit))) }
    ensures failed { OnErr result (Rose (S.faults sink.old) (S.faults sink.new)) }
    ensures never_falls { S.faults sink.old ≤ S.faults sink.new }
{
    let mut counted = Buffer::new();
    let mut most = Buffer::new();
    let texts = [
        "limit ".as_bytes(),
        name.as_bytes(),
        " ".as_bytes(),
        counted.format(count).as_bytes(),
        " over ".as_bytes(),
        most.format(limit).as_bytes(),
        "\n".as_bytes(),
    ];
    write_texts(sink, &texts)
}

/// Writes the line of a text without tokens.
pub(crate) fn write_token<S: Sink>(sink: &mut S, place: u64) -> Result<(), Failed>
    ensures appended { OnOk result (Appends (S.written sink.old) (S.written sink.new) (as_line (token_line place))) }
    ensures prefix { OnErr result (AppendsPrefix (S.written sink.old) (S.written sink.new) (as_line (token_line place))) }
    ensures failed { OnErr result (Rose (S.faults sink.old) (S.faults sink.new)) }
    ensures never_falls { S.faults sink.old ≤ S.faults sink.new }
{
    let mut counted = Buffer::new();
    let texts = [
        "refused token at byte ".as_bytes(),
        counted.format(place).as_bytes(),
        "\n".as_bytes(),
    ];
    write_texts(sink, &texts)
}

/// Writes the line of a text without the grammar.
pub(crate) fn write_grammar<S: Sink>(sink: &mut S, place: u64) -> Result<(), Failed>
    ensures appended { OnOk result (Appends (S.written sink.old) (S.written sink.new) (as_line (grammar_line place))) }
    ensures prefix { OnErr result (AppendsPrefix (S.written sink.old) (S.written sink.new) (as_line (grammar_line place))) }
    ensures failed { OnErr result (Rose (S.faults sink.old) (S.faults sink.new)) }
    ensures never_falls { S.faults sink.old ≤ S.faults sink.new }
{
    let mut counted = Buffer::new();
    let texts = [
        "refused grammar at byte ".as_bytes(),
        counted.format(place).as_bytes(),
        "\n".as_bytes(),
    ];
    write_texts(sink, &texts)
}

/// Writes the line of a text with a word that is left out.
pub(crate) fn write_left_out<S: Sink>(sink: &mut S, word: &[u8], place: u64) -> Result<(), Failed>
    ensures appended { OnOk result (Appends (S.written sink.old) (S.written sink.new) (as_line (left_out_line word.now place))) }
    ensures prefix { OnErr result (AppendsPrefix (S.written sink.old) (S.written sink.new) (as_line (left_out_line word.now place))) }
    ensures failed { OnErr result (Rose (S.faults sink.old) (S.faults sink.new)) }
    ensures never_falls { S.faults sink.old ≤ S.faults sink.new }
{
    let mut counted = Buffer::new();
    let texts = [
        "refused left out ".as_bytes(),
        word,
        " at byte ".as_bytes(),
        counted.format(place).as_bytes(),
        "\n".as_bytes(),
    ];
    write_texts(sink, &texts)
}

/// Writes which rule is broken, in which netlist or component and at which item.
fn write_place<S: Sink>(
    sink: &mut S,
    language: Language,
    rule: u8,
    name: &[u8],
    item: u64,
) -> Result<(), Failed>
    ensures appended { OnOk result (Appends (S.written sink.old) (S.written sink.new) (place_text (rule_name language rule) name.now item)) }
    ensures prefix { OnErr result (AppendsPrefix (S.written sink.old) (S.written sink.new) (place_text (rule_name language rule) name.now item)) }
    ensures failed { OnErr result (Rose (S.faults sink.old) (S.faults sink.new)) }
    ensures never_falls { S.faults sink.old ≤ S.faults sink.new }
{
    let mut number = Buffer::new();
    let mut place = Buffer::new();
    let texts = [
        "refused ".as_bytes(),
        language.letter().as_bytes(),
        number.format(rule).as_bytes(),
        " ".as_bytes(),
        name,
        " item ".as_bytes(),
        place.format(item).as_bytes(),
    ];
    write_texts(sink, &texts)
}

/// Writes the ports, each after a space.
fn write_ports<S: Sink>(sink: &mut S, ports: &[Word]) -> Result<(), Failed>
    ensures appended { OnOk result (Appends (S.written sink.old) (S.written sink.new) (spaced ports.now)) }
    ensures prefix { OnErr result (AppendsPrefix (S.written sink.old) (S.written sink.new) (spaced ports.now)) }
    ensures failed { OnErr result (Rose (S.faults sink.old) (S.faults sink.new)) }
    ensures never_falls { S.faults sink.old ≤ S.faults sink.new }
{
    for port in ports {
        write_texts(sink, &[" ".as_bytes(), port.bytes()])?;
    }
    Ok(())
}

/// Writes a loop of ports, if there is one.
fn write_loop<S: Sink>(sink: &mut S, ports: &[Word]) -> Result<(), Failed>
    ensures appended { OnOk result (Appends (S.written sink.old) (S.written sink.new) (loop_text ports.now)) }
    ensures prefix { OnErr result (AppendsPrefix (S.written sink.old) (S.written sink.new) (loop_text ports.now)) }
    ensures failed { OnErr result (Rose (S.faults sink.old) (S.faults sink.new)) }
    ensures never_falls { S.faults sink.old ≤ S.faults sink.new }
{
    if ports.is_empty() {
        return Ok(());
    }
    write_whole(sink, " loop".as_bytes())?;
    write_ports(sink, ports)
}

/// Writes a space, a name, a space and a count.
fn write_count<S: Sink>(sink: &mut S, name: &str, count: u64) -> Result<(), Failed>
    ensures appended { OnOk result (Appends (S.written sink.old) (S.written sink.new) (count_text name.now count)) }
    ensures prefix { OnErr result (AppendsPrefix (S.written sink.old) (S.written sink.new) (count_text name.now count)) }
    ensures failed { OnErr result (Rose (S.faults sink.old) (S.faults sink.new)) }
    ensures never_falls { S.faults sink.old ≤ S.faults sink.new }
{
    let mut digits = Buffer::new();
    let texts = [
        " ".as_bytes(),
        name.as_bytes(),
        " ".as_bytes(),
        digits.format(count).as_bytes(),
    ];
    write_texts(sink, &texts)
}

/// Writes the gap of two transactions, and the row in which they meet.
fn write_gap<S: Sink>(sink: &mut S, meet: &Meet) -> Result<(), Failed>
    ensures appended { OnOk result (Appends (S.written sink.old) (S.written sink.new) (evidence_text (AGap meet.now.gap meet.now.cycle))) }
    ensures prefix { OnErr result (AppendsPrefix (S.written sink.old) (S.written sink.new) (evidence_text (AGap meet.now.gap meet.now.cycle))) }
    ensures failed { OnErr result (Rose (S.faults sink.old) (S.faults sink.new)) }
    ensures never_falls { S.faults sink.old ≤ S.faults sink.new }
{
    let mut gap = Buffer::new();
    let mut cycle = Buffer::new();
    let texts = [
        " gap ".as_bytes(),
        gap.format(meet.gap).as_bytes(),
        " cycle ".as_bytes(),
        cycle.format(meet.cycle).as_bytes(),
    ];
    write_texts(sink, &texts)
}

/// Writes what a broken rule of Filament shows besides itself.
fn write_evidence<S: Sink>(sink: &mut S, evidence: &Evidence) -> Result<(), Failed>
    ensures appended { OnOk result (Appends (S.written sink.old) (S.written sink.new) (evidence_text (evidence_of evidence.now))) }
    ensures prefix { OnErr result (AppendsPrefix (S.written sink.old) (S.written sink.new) (evidence_text (evidence_of evidence.now))) }
    ensures failed { OnErr result (Rose (S.faults sink.old) (S.faults sink.new)) }
    ensures never_falls { S.faults sink.old ≤ S.faults sink.new }
{
    match evidence {
        Evidence::Nothing => Ok(()),
        Evidence::Offset(offset) => write_count(sink, "offset", *offset),
        Evidence::Cycle(cycle) => write_count(sink, "cycle", *cycle),
        Evidence::Gap(meet) => write_gap(sink, meet),
        Evidence::Loop(ports) => write_loop(sink, ports),
    }
}

/// Writes the line of a broken rule of a netlist or a Calyx design, with the loop of ports that it shows, if it does.
pub(crate) fn write_rule<S: Sink>(
    sink: &mut S,
    language: Language,
    rule: u8,
    name: &[u8],
    item: u64,
    ports: &[Word],
) -> Result<(), Failed>
    ensures appended { OnOk result (Appends (S.written sink.old) (S.written sink.new) (as_line (rule_line (rule_name language rule) name.now item (loop_text ports.now)))) }
    ensures prefix { OnErr result (AppendsPrefix (S.written sink.old) (S.written sink.new) (as_line (rule_line (rule_name language rule) name.now item (loop_text ports.now)))) }
    ensures failed { OnErr result (Rose (S.faults sink.old) (S.faults sink.new)) }
    ensures never_falls { S.faults sink.old ≤ S.faults sink.new }
{
    write_place(sink, language, rule, name, item)?;
    write_loop(sink, ports)?;
    write_whole(sink, "\n".as_bytes())
}

/// Writes the line of a broken rule of Filament, with what it shows.
pub(crate) fn write_filament_rule<S: Sink>(
    sink: &mut S,
    rule: u8,
    name: &[u8],
    item: u64,
    evidence: &Evidence,
) -> Result<(), Failed>
    ensures appended { OnOk result (Appends (S.written sink.old) (S.written sink.new) (as_line (rule_line (rule_name Language.Filament rule) name.now item (evidence_text (evidence_of evidence.now))))) }
    ensures prefix { OnErr result (AppendsPrefix (S.written sink.old) (S.written sink.new) (as_line (rule_line (rule_name Language.Filament rule) name.now item (evidence_text (evidence_of evidence.now))))) }
    ensures failed { OnErr result (Rose (S.faults sink.old) (S.faults sink.new)) }
    ensures never_falls { S.faults sink.old ≤ S.faults sink.new }
{
    write_place(sink, Language::Filament, rule, name, item)?;
    write_evidence(sink, evidence)?;
    write_whole(sink, "\n".as_bytes())
}

/// Writes the entry that breaks a rule of a stimulus, where the rule is of one.
fn write_entry<S: Sink>(sink: &mut S, rule: u8, entry: u64) -> Result<(), Failed>
    ensures appended { OnOk result (Appends (S.written sink.old) (S.written sink.new) (entry_text rule entry)) }
    ensures prefix { OnErr result (AppendsPrefix (S.written sink.old) (S.written sink.new) (entry_text rule entry)) }
    ensures failed { OnErr result (Rose (S.faults sink.old) (S.faults sink.new)) }
    ensures never_falls { S.faults sink.old ≤ S.faults sink.new }
{
    if rule > 2 {
        write_count(sink, "entry", entry)
    } else {
        Ok(())
    }
}

/// Writes the rule of a stimulus, and its entry.
fn write_stimulus_rule<S: Sink>(sink: &mut S, rule: u8, entry: u64) -> Result<(), Failed>
    ensures appended { OnOk result (Appends (S.written sink.old) (S.written sink.new) (stimulus_text rule entry)) }
    ensures prefix { OnErr result (AppendsPrefix (S.written sink.old) (S.written sink.new) (stimulus_text rule entry)) }
    ensures failed { OnErr result (Rose (S.faults sink.old) (S.faults sink.new)) }
    ensures never_falls { S.faults sink.old ≤ S.faults sink.new }
{
    let mut number = Buffer::new();
    write_texts(
        sink,
        &["stimulus S".as_bytes(), number.format(rule).as_bytes()],
    )?;
    write_entry(sink, rule, entry)
}

/// Writes the two starts that are too near, and the delay that is between them.
fn write_starts<S: Sink>(sink: &mut S, first: u64, second: u64, delay: u64) -> Result<(), Failed>
    ensures appended { OnOk result (Appends (S.written sink.old) (S.written sink.new) (starts_text first second delay)) }
    ensures prefix { OnErr result (AppendsPrefix (S.written sink.old) (S.written sink.new) (starts_text first second delay)) }
    ensures failed { OnErr result (Rose (S.faults sink.old) (S.faults sink.new)) }
    ensures never_falls { S.faults sink.old ≤ S.faults sink.new }
{
    let mut before = Buffer::new();
    let mut after = Buffer::new();
    let mut least = Buffer::new();
    let texts = [
        " starts ".as_bytes(),
        before.format(first).as_bytes(),
        " ".as_bytes(),
        after.format(second).as_bytes(),
        " delay ".as_bytes(),
        least.format(delay).as_bytes(),
    ];
    write_texts(sink, &texts)
}

/// Writes the same for a rule of a stimulus: S5 shows it.
fn write_shown_starts<S: Sink>(
    sink: &mut S,
    rule: u8,
    first: u64,
    second: u64,
    delay: u64,
) -> Result<(), Failed>
    ensures appended { OnOk result (Appends (S.written sink.old) (S.written sink.new) (shown_starts rule first second delay)) }
    ensures prefix { OnErr result (AppendsPrefix (S.written sink.old) (S.written sink.new) (shown_starts rule first second delay)) }
    ensures failed { OnErr result (Rose (S.faults sink.old) (S.faults sink.new)) }
    ensures never_falls { S.faults sink.old ≤ S.faults sink.new }
{
    if rule == 5 {
        write_starts(sink, first, second, delay)
    } else {
        Ok(())
    }
}

/// Writes the line of a stimulus that breaks this rule S1 to S7.
pub(crate) fn write_stimulus<S: Sink>(
    sink: &mut S,
    rule: u8,
    entry: u64,
    first: u64,
    second: u64,
    delay: u64,
) -> Result<(), Failed>
    ensures appended { OnOk result (Appends (S.written sink.old) (S.written sink.new) (as_line (stimulus_line rule entry first second delay))) }
    ensures prefix { OnErr result (AppendsPrefix (S.written sink.old) (S.written sink.new) (as_line (stimulus_line rule entry first second delay))) }
    ensures failed { OnErr result (Rose (S.faults sink.old) (S.faults sink.new)) }
    ensures never_falls { S.faults sink.old ≤ S.faults sink.new }
{
    write_stimulus_rule(sink, rule, entry)?;
    write_shown_starts(sink, rule, first, second, delay)?;
    write_whole(sink, "\n".as_bytes())
}

/// Writes the line of a Conflict.
pub(crate) fn write_conflict<S: Sink>(sink: &mut S, cycle: u64, port: &[u8]) -> Result<(), Failed>
    ensures appended { OnOk result (Appends (S.written sink.old) (S.written sink.new) (as_line (conflict_line cycle port.now))) }
    ensures prefix { OnErr result (AppendsPrefix (S.written sink.old) (S.written sink.new) (as_line (conflict_line cycle port.now))) }
    ensures failed { OnErr result (Rose (S.faults sink.old) (S.faults sink.new)) }
    ensures never_falls { S.faults sink.old ≤ S.faults sink.new }
{
    let mut counted = Buffer::new();
    let texts = [
        "conflict cycle ".as_bytes(),
        counted.format(cycle).as_bytes(),
        " port ".as_bytes(),
        port,
        "\n".as_bytes(),
    ];
    write_texts(sink, &texts)
}
