//! The summary of a run: what it adds up to.
ghost use Rattle.std.specs.Prelude.{◌≡◌, ◌≤◌, [], ◌++◌, IfErr, IsErrOf, OnOk, OnErr};
ghost use Rattle.std.specs.Io.KnownBytes.{Appends};
ghost use Rattle.hw_io.specs.Faults.{Rose};
ghost use Rattle.hw_io.specs.Writing.{AppendsPrefix, Passes};
ghost use Rattle.filc_report.specs.Sums.{count_line, summary_text};
ghost use Rattle.filc_stop.specs.Stops.{IsWritingStop};

use crate::report::push_texts;
use crate::sums::Sums;
use filc_stop::Stop;
use hw_io::{Failed, Gather, Sink};
use itoa::Buffer;
use std::alloc::Global;

/// Passes a name with its number on, as a line.
fn push_count<O: Sink>(
    name: &[u8],
    number: u64,
    held: &mut Gather,
    out: &mut O,
) -> Result<(), Failed>
    ensures passed { OnOk result (Passes (O.written out.old) held.old (O.written out.new) held.new (count_line name.now number)) }
    ensures prefix { OnErr result (AppendsPrefix (O.written out.old) (O.written out.new) (held.old ++ count_line name.now number)) }
    ensures emptied { OnErr result (held.new ≡ []) }
    ensures failed { OnErr result (Rose (O.faults out.old) (O.faults out.new)) }
    ensures never_falls { O.faults out.old ≤ O.faults out.new }
{
    let mut digits = Buffer::new();
    let texts = [
        name,
        " ".as_bytes(),
        digits.format(number).as_bytes(),
        "\n".as_bytes(),
    ];
    push_texts(held, out, &texts)
}

/// Writes how many transactions and rows a run has, and what it adds up to.
pub fn write_summary<O: Sink>(
    alloc: Global,
    transactions: u64,
    rows: u64,
    sums: Sums,
    out: &mut O,
) -> Result<(), Stop>
    ensures written { OnOk result (Appends (O.written out.old) (O.written out.new) (summary_text transactions rows sums.outputs sums.ports)) }
    ensures part { OnErr result (AppendsPrefix (O.written out.old) (O.written out.new) (summary_text transactions rows sums.outputs sums.ports)) }
    ensures stops { IfErr result IsWritingStop }
    ensures write_fault { IsErrOf result Stop.WriteFault → Rose (O.faults out.old) (O.faults out.new) }
    ensures never_falls { O.faults out.old ≤ O.faults out.new }
{
    let mut held = Gather::new(alloc)?;
    push_count("transactions".as_bytes(), transactions, &mut held, out)?;
    push_count("cycles".as_bytes(), rows, &mut held, out)?;
    push_count("sum".as_bytes(), sums.outputs, &mut held, out)?;
    push_count("ports".as_bytes(), sums.ports, &mut held, out)?;
    held.flush(out)?;
    Ok(())
}
