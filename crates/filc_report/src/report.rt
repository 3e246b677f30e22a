//! The text of rows, passed on as they come.
ghost use Rattle.std.specs.Prelude.{◌≡◌, ◌+◌, ◌<◌, ◌≤◌, [], ◌++◌, length, OnOk, OnErr};
ghost use Rattle.std.specs.Io.KnownBytes.{Appends};
ghost use Rattle.hw_io.specs.Faults.{Rose};
ghost use Rattle.hw_io.specs.Writing.{AppendsPrefix, Passes};
ghost use Rattle.filc_report.specs.declared.line.TheConstants.{LINE_BYTES};
ghost use Rattle.filc_report.specs.Rows.{accepted_text, port_text, marked_port};
ghost use Rattle.filc_report.specs.Views.{line_at};
ghost use Rattle.filc_load.specs.Slots.{NumbersPortsAsNames};
ghost use Rattle.filc_stop.specs.Stops.{joined};

use crate::digits::digits_of;
use crate::line::{BESIDE_NAME, Line};
use crate::view::View;
use filc_load::name_of;
use hw_io::{Failed, Gather, Sink, write_whole};
use itoa::Buffer;
use net_core::Table;
use net_row::Sim;

/// Passes the texts on, one after another.
pub(crate) fn push_texts<O: Sink>(
    held: &mut Gather,
    out: &mut O,
    texts: &[&[u8]],
) -> Result<(), Failed>
    ensures passed { OnOk result (Passes (O.written out.old) held.old (O.written out.new) held.new (joined texts.now)) }
    ensures prefix { OnErr result (AppendsPrefix (O.written out.old) (O.written out.new) (held.old ++ joined texts.now)) }
    ensures emptied { OnErr result (held.new ≡ []) }
    ensures failed { OnErr result (Rose (O.faults out.old) (O.faults out.new)) }
    ensures never_falls { O.faults out.old ≤ O.faults out.new }
{
    for text in texts {
        held.push(out, text)?;
    }
    Ok(())
}

/// Passes a port with its value on.
pub(crate) fn push_port<O: Sink>(
    held: &mut Gather,
    out: &mut O,
    port: &[u8],
    value: u128,
) -> Result<(), Failed>
    ensures passed { OnOk result (Passes (O.written out.old) held.old (O.written out.new) held.new (port_text port.now value)) }
    ensures prefix { OnErr result (AppendsPrefix (O.written out.old) (O.written out.new) (held.old ++ port_text port.now value)) }
    ensures emptied { OnErr result (held.new ≡ []) }
    ensures failed { OnErr result (Rose (O.faults out.old) (O.faults out.new)) }
    ensures never_falls { O.faults out.old ≤ O.faults out.new }
{
    let mut digits = Buffer::new();
    let texts = [
        " ".as_bytes(),
        port,
        "=".as_bytes(),
        digits_of(&mut digits, value),
    ];
    push_texts(held, out, &texts)
}

/// Passes a port on, with its value or a dash.
fn push_marked<O: Sink>(
    held: &mut Gather,
    out: &mut O,
    port: &[u8],
    value: u128,
    shown: bool,
) -> Result<(), Failed>
    ensures passed { OnOk result (Passes (O.written out.old) held.old (O.written out.new) held.new (marked_port port.now value shown)) }
    ensures prefix { OnErr result (AppendsPrefix (O.written out.old) (O.written out.new) (held.old ++ marked_port port.now value shown)) }
    ensures emptied { OnErr result (held.new ≡ []) }
    ensures failed { OnErr result (Rose (O.faults out.old) (O.faults out.new)) }
    ensures never_falls { O.faults out.old ≤ O.faults out.new }
{
    if shown {
        push_port(held, out, port, value)
    } else {
        push_texts(
            held,
            out,
            &[" ".as_bytes(), port, "=".as_bytes(), "-".as_bytes()],
        )
    }
}

/// Puts a port into a line that has room for it and for a byte more. Else passes on what the line holds, and then the port.
fn pass_port<O: Sink>(
    line: &mut Line,
    held: &mut Gather,
    out: &mut O,
    port: &[u8],
    value: u128,
    shown: bool,
) -> Result<(), Failed>
    requires room { length line.old < LINE_BYTES }
    ensures passed { OnOk result (Passes (O.written out.old) (held.old ++ line.old) (O.written out.new) (held.new ++ line.new) (marked_port port.now value shown)) }
    ensures prefix { OnErr result (AppendsPrefix (O.written out.old) (O.written out.new) ((held.old ++ line.old) ++ marked_port port.now value shown)) }
    ensures emptied { OnErr result (held.new ≡ []) }
    ensures room { length line.new < LINE_BYTES }
    ensures failed { OnErr result (Rose (O.faults out.old) (O.faults out.new)) }
    ensures never_falls { O.faults out.old ≤ O.faults out.new }
{
    let fits = port.len() + BESIDE_NAME < line.room();
    if fits {
        line.put_port(port, value, shown);
        return Ok(());
    }
    held.push(out, line.bytes())?;
    line.clear();
    push_marked(held, out, port, value, shown)
}

/// Passes the line of a row on: the cycle, and the ports of the view with their values in the row, where they are shown. It is made in `line`, of
/// which nothing is kept.
pub(crate) fn push_row<O: Sink>(
    sim: &Sim,
    table: &Table,
    view: &View,
    cycle: u64,
    line: &mut Line,
    held: &mut Gather,
    out: &mut O,
) -> Result<(), Failed>
    requires marks { view.now.ports.start + length view.now.shown.items ≡ view.now.ports.end }
    requires named { view.now.ports.end ≤ length table.now.names }
    requires numbers { NumbersPortsAsNames table.now }
    requires evaluated { view.now.ports.end ≤ length sim.now.values }
    ensures passed { OnOk result (Passes (O.written out.old) held.old (O.written out.new) held.new
        (line_at cycle table.now.names sim.now.values view.now)) }
    ensures prefix { OnErr result (AppendsPrefix (O.written out.old) (O.written out.new) (held.old ++ line_at cycle table.now.names sim.now.values view.now)) }
    ensures emptied { OnErr result (held.new ≡ []) }
    ensures failed { OnErr result (Rose (O.faults out.old) (O.faults out.new)) }
    ensures never_falls { O.faults out.old ≤ O.faults out.new }
{
    line.clear();
    line.put_number(cycle);
    let first = view.ports.start;
    for at in 0..view.shown.len() {
        let port = first + at;
        let name = name_of(table, port);
        pass_port(
            line,
            held,
            out,
            name,
            sim.value(port).value(),
            view.shown[at],
        )?;
    }
    line.put_byte(b'\n');
    held.push(out, line.bytes())
}

/// Writes that a design is accepted.
pub fn write_accepted<O: Sink>(out: &mut O) -> Result<(), Failed>
    ensures appended { OnOk result (Appends (O.written out.old) (O.written out.new) accepted_text) }
    ensures prefix { OnErr result (AppendsPrefix (O.written out.old) (O.written out.new) accepted_text) }
    ensures failed { OnErr result (Rose (O.faults out.old) (O.faults out.new)) }
    ensures never_falls { O.faults out.old ≤ O.faults out.new }
{
    write_whole(out, "accepted\n".as_bytes())
}

/// Writes a text, whole.
pub fn write_text<O: Sink>(text: &[u8], out: &mut O) -> Result<(), Failed>
    ensures appended { OnOk result (Appends (O.written out.old) (O.written out.new) text.now) }
    ensures prefix { OnErr result (AppendsPrefix (O.written out.old) (O.written out.new) text.now) }
    ensures failed { OnErr result (Rose (O.faults out.old) (O.faults out.new)) }
    ensures never_falls { O.faults out.old ≤ O.faults out.new }
{
    write_whole(out, text)
}
