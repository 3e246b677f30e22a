//! C3 and C4: parameters and widths.
ghost use Rattle.std.specs.Prelude.{◌≡◌, ◌↔◌, List, map, slice_get, codes, false, None, Some, All, IsTrue};
ghost use Rattle.hw_names.specs.Name.{Text, text_of};
ghost use Rattle.net_core.specs.declared.net.Cmp.{Cmp};
ghost use Rattle.net_core.specs.Guard.{Compares, Reads, guard_option, guard_tree, guards_of, source_tree};
ghost use Rattle.net_core.specs.Numbers.{IsNumberOf};
ghost use Rattle.cal_ast.specs.Numbers.{CellHasNumbers, DoneHasNumbers, GuardHasNumbers, InHasNumbers, OutHasNumbers, PortHasNumbers, SetHasNumbers, SourceHasNumbers, StatementHasNumbers, WhenHasNumbers};
ghost use Rattle.cal_ast.specs.Ports.{is_bare, width_in};
ghost use Rattle.cal_ast.specs.Tree.{assignment_tree, cell_tree, done_tree, in_tree, out_tree, own, pin_tree, port_tree, statement_tree};
ghost use Rattle.cal_ast.specs.Typing.{DoneAgrees, GuardAgrees, GuardsAgree, HasParameters, HasWidth, HasWidths, InAgrees, IsWidth, LiteralFits, OptionAgrees, OutAgrees, StatementAgrees, WidthsAgree, source_width};
ghost use Rattle.cal_place.specs.Around.{comp_at, design_at, names_at};

use cal_ast::{Assign, CalCell, CalPin, CalPort, Control, DoneSet, InBind, OutBind};
use cal_place::{Place, is_primitive};
use hw_bits::{Bits, MAX_WIDTH};
use hw_names::NameId;
use net_core::{Guard, Src};

/// Whether the width is 1 to 128 bits.
fn is_width(width: u128) -> bool
    ensures { IsTrue result ↔ IsWidth width }
{
    width >= 1 && width <= MAX_WIDTH as u128
}

/// Whether each port has a width of 1 to 128 bits.
fn have_widths(pins: &[CalPin]) -> bool
    ensures { (names : List Text) → IsTrue result ↔ All HasWidth (map (pin_tree names) pins.now) }
{
    for pin in pins {
        if !is_width(pin.width) {
            return false;
        }
    }
    true
}

/// Whether the component's own port of this name has one bit.
fn has_own_bit(place: &Place, name: &[u8]) -> bool
    ensures { IsTrue result ↔ (width_in (design_at place.now) (comp_at place.now) (record { cell = None; pin = name.now }) ≡ Some 1) }
{
    match place.pin(None, name) {
        Some(pin) => pin.width == 1,
        None => false,
    }
}

/// Whether the `go` and the `done` of a component that isn't bare have one bit.
fn has_control_bits(place: &Place) -> bool
    ensures { IsTrue result
        ↔ (is_bare (comp_at place.now) ≡ false → (width_in (design_at place.now) (comp_at place.now) (own (codes "go")) ≡ Some 1)
        × (width_in (design_at place.now) (comp_at place.now) (own (codes "done")) ≡ Some 1)) }
{
    if place.signature().bare {
        return true;
    }
    has_own_bit(place, b"go") && has_own_bit(place, b"done")
}

/// C4 at the signature: widths are 1 to 128, and the `go` and the `done` of a component that isn't bare have one bit.
pub fn has_widths(place: &Place) -> bool
    ensures { IsTrue result ↔ HasWidths (design_at place.now) (comp_at place.now) }
{
    let comp = place.comp();
    if !have_widths(&comp.ins) {
        return false;
    }
    if !have_widths(&comp.outs) {
        return false;
    }
    has_control_bits(place)
}

/// C3 at a cell: its parameters have the right number and range.
pub fn has_parameters(place: &Place, number: usize, cell: &CalCell) -> bool
    requires numbers { CellHasNumbers (names_at place.now) cell.now }
    requires at { slice_get (comp_at place.now).cells number ≡ Some (cell_tree (names_at place.now) cell.now) }
    ensures { IsTrue result ↔ HasParameters (cell_tree (names_at place.now) cell.now) }
{
    if is_primitive(place.text(cell.made)) {
        place.made(number).is_some()
    } else {
        cell.params.is_empty()
    }
}

/// Whether a literal has a width of 1 to 128 bits and fits it.
fn literal_fits(src: Src<CalPort>) -> bool
    ensures { (names : List Text) → IsTrue result ↔ LiteralFits (source_tree (port_tree names) src) }
{
    match src {
        Src::Port(_) => true,
        Src::Lit { width, value } => {
            if width > MAX_WIDTH as u128 {
                return false;
            }
            Bits::new(value, width as u8).is_some()
        }
    }
}

/// The width in bits of the port that a line names, if there is one.
pub fn port_width(place: &Place, port: CalPort) -> Option<u128>
    requires { PortHasNumbers (names_at place.now) port }
    ensures { result ≡ width_in (design_at place.now) (comp_at place.now) (port_tree (names_at place.now) port) }
{
    Some(place.port(port)?.width)
}

/// The width in bits of a source, if there is one.
pub fn source_width(place: &Place, src: Src<CalPort>) -> Option<u128>
    requires { SourceHasNumbers (names_at place.now) src }
    ensures { result ≡ source_width (design_at place.now) (comp_at place.now) (source_tree (port_tree (names_at place.now)) src) }
{
    match src {
        Src::Port(port) => port_width(place, port),
        Src::Lit { width, .. } => Some(width),
    }
}

/// C4 of a source that stands alone as a guard: it has one bit, and a literal fits.
fn is_bit(place: &Place, src: Src<CalPort>) -> bool
    requires { SourceHasNumbers (names_at place.now) src }
    ensures { IsTrue result ↔ GuardAgrees (design_at place.now) (comp_at place.now) (Reads (source_tree (port_tree (names_at place.now)) src)) }
{
    literal_fits(src) && source_width(place, src) == Some(1)
}

/// C4 of a comparison: both sides have one width, and literals fit.
fn can_compare(place: &Place, left: Src<CalPort>, right: Src<CalPort>) -> bool
    requires left { SourceHasNumbers (names_at place.now) left }
    requires right { SourceHasNumbers (names_at place.now) right }
    ensures { (op : Cmp) → IsTrue result
        ↔ GuardAgrees (design_at place.now) (comp_at place.now)
        (Compares op (source_tree (port_tree (names_at place.now)) left) (source_tree (port_tree (names_at place.now)) right)) }
{
    if !literal_fits(left) {
        return false;
    }
    if !literal_fits(right) {
        return false;
    }
    source_width(place, left) == source_width(place, right)
}

/// C4 of a guard: both sides of a comparison have one width, what stands alone has one bit, and literals fit. It goes
/// over a run of `!` by a loop, so that the stack holds.
#[cycle(guard_agrees)]
fn guard_agrees(place: &Place, guard: &Guard<CalPort>) -> bool
    requires { GuardHasNumbers (names_at place.now) guard.now }
    ensures { IsTrue result ↔ GuardAgrees (design_at place.now) (comp_at place.now) (guard_tree (port_tree (names_at place.now)) guard.now) }
{
    let mut inner = guard;
    loop {
        match inner {
            Guard::Not(negated) => inner = negated,
            Guard::All(guards) | Guard::Any(guards) => return guards_agree(place, guards),
            Guard::Read(src) => return is_bit(place, **src),
            Guard::Test(_, left, right) => return can_compare(place, **left, **right),
        }
    }
}

/// C4 of the guards of a list.
#[cycle(guard_agrees)]
fn guards_agree(place: &Place, guards: &[Guard<CalPort>]) -> bool
    requires { All (GuardHasNumbers (names_at place.now)) guards.now }
    ensures { IsTrue result
        ↔ GuardsAgree (design_at place.now) (comp_at place.now) (guards_of (map (guard_tree (port_tree (names_at place.now))) guards.now)) }
{
    for guard in guards {
        if !guard_agrees(place, guard) {
            return false;
        }
    }
    true
}

/// C4 of the guard of a line, if it has one.
fn option_agrees(place: &Place, guard: &Option<Guard<CalPort>>) -> bool
    requires { WhenHasNumbers (names_at place.now) guard.now }
    ensures { IsTrue result ↔ OptionAgrees (design_at place.now) (comp_at place.now) (guard_option (port_tree (names_at place.now)) guard.now) }
{
    match guard {
        Some(guard) => guard_agrees(place, guard),
        None => true,
    }
}

/// C4 at an assignment.
pub fn widths_agree(place: &Place, set: &Assign) -> bool
    requires { SetHasNumbers (names_at place.now) set.now }
    ensures { IsTrue result ↔ WidthsAgree (design_at place.now) (comp_at place.now) (assignment_tree (names_at place.now) set.now) }
{
    if !literal_fits(set.src) {
        return false;
    }
    if port_width(place, set.dst) != source_width(place, set.src) {
        return false;
    }
    option_agrees(place, &set.guard)
}

/// C4 at a done line.
pub fn done_agrees(place: &Place, done: &DoneSet) -> bool
    requires { DoneHasNumbers (names_at place.now) done.now }
    ensures { IsTrue result ↔ DoneAgrees (design_at place.now) (comp_at place.now) (done_tree (names_at place.now) done.now) }
{
    literal_fits(done.src) && option_agrees(place, &done.guard)
}

/// Whether what an invoke gives an input of the cell has the width of that port.
fn in_agrees(place: &Place, cell: NameId, bind: InBind) -> bool
    requires cell { IsNumberOf (names_at place.now) cell }
    requires bind { InHasNumbers (names_at place.now) bind }
    ensures { IsTrue result ↔ InAgrees (design_at place.now) (comp_at place.now) (text_of (names_at place.now) cell) (in_tree (names_at place.now) bind) }
{
    let port = CalPort {
        cell: Some(cell),
        port: bind.port,
    };
    literal_fits(bind.src) && port_width(place, port) == source_width(place, bind.src)
}

/// Whether where an invoke puts an output of the cell has the width of that port.
fn out_agrees(place: &Place, cell: NameId, bind: OutBind) -> bool
    requires cell { IsNumberOf (names_at place.now) cell }
    requires bind { OutHasNumbers (names_at place.now) bind }
    ensures { IsTrue result ↔ OutAgrees (design_at place.now) (comp_at place.now) (text_of (names_at place.now) cell) (out_tree (names_at place.now) bind) }
{
    let port = CalPort {
        cell: Some(cell),
        port: bind.port,
    };
    port_width(place, port) == port_width(place, bind.dst)
}

/// Whether what an invoke gives each input of the cell has the width of that port.
fn ins_agree(place: &Place, cell: NameId, ins: &[InBind]) -> bool
    requires cell { IsNumberOf (names_at place.now) cell }
    requires ins { All (InHasNumbers (names_at place.now)) ins.now }
    ensures { IsTrue result
        ↔ All (InAgrees (design_at place.now) (comp_at place.now) (text_of (names_at place.now) cell)) (map (in_tree (names_at place.now)) ins.now) }
{
    for bind in ins {
        if !in_agrees(place, cell, *bind) {
            return false;
        }
    }
    true
}

/// Whether where an invoke puts each output of the cell has the width of that port.
fn outs_agree(place: &Place, cell: NameId, outs: &[OutBind]) -> bool
    requires cell { IsNumberOf (names_at place.now) cell }
    requires outs { All (OutHasNumbers (names_at place.now)) outs.now }
    ensures { IsTrue result
        ↔ All (OutAgrees (design_at place.now) (comp_at place.now) (text_of (names_at place.now) cell)) (map (out_tree (names_at place.now)) outs.now) }
{
    for bind in outs {
        if !out_agrees(place, cell, *bind) {
            return false;
        }
    }
    true
}

/// C4 at a control statement.
pub fn statement_agrees(place: &Place, statement: &Control) -> bool
    requires { StatementHasNumbers (names_at place.now) statement.now }
    ensures { IsTrue result ↔ StatementAgrees (design_at place.now) (comp_at place.now) (statement_tree (names_at place.now) statement.now) }
{
    match statement {
        Control::Invoke { cell, ins, outs } => {
            ins_agree(place, *cell, ins) && outs_agree(place, *cell, outs)
        }
        _ => true,
    }
}
