//! The assignments of a netlist: the lines `set`.
ghost use Rattle.std.specs.Prelude.{◌≡◌, ◌+◌, ◌^◌, ◌<◌, ◌&&◌, ◌==◌, nat_lt, [], ◌∷◌, List, true, length, map, All};
ghost use Rattle.hw_names.specs.Name.{Text, text_of};
ghost use Rattle.hw_prims.specs.Table.{is_width};
ghost use Rattle.net_core.specs.Guard.{guards_of, guard_tree, guard_option, source_tree};
ghost use Rattle.net_core.specs.Judging.{set_lines, first_broken, Tells};
ghost use Rattle.net_core.specs.inside.Kept.{all_kept, both_kept, kept_by_guard, kept_by_guards, kept_by_set, kept_by_option, kept_alone, kept_compared, kept_driven, fault_of};
ghost use Rattle.net_core.specs.Netlist.{SetOf, set_of};
ghost use Rattle.net_core.specs.Numbers.{SourceHasNumbers, GuardHasNumbers, WhenHasNumbers, SetHasNumbers};
ghost use Rattle.net_core.specs.Rules.{PortLine, source_exists, literal_fits, source_is_readable, source_width};

use crate::net::{Guard, NetAssign, Src};
use crate::pins::width_of;
use crate::ports::{Port, Ports};
use crate::rules::NetEnd;
use hw_bits::Bits;
use hw_names::{NameId, Names};

/// Which of the rules N2, N3 and N4 are kept, in this order.
#[derive(Clone, Copy)]
pub struct Kept {
    pub known: bool,
    pub widths: bool,
    pub sides: bool,
}

impl Kept {
    /// All are.
    fn all() -> Kept
        ensures { result ≡ all_kept }
    {
        Kept {
            known: true,
            widths: true,
            sides: true,
        }
    }

    /// Those that both keep.
    fn and(self, other: Kept) -> Kept
        ensures { result ≡ both_kept self other }
    {
        Kept {
            known: self.known && other.known,
            widths: self.widths && other.widths,
            sides: self.sides && other.sides,
        }
    }

    /// The least rule that is not kept.
    fn fault(self) -> Option<u8>
        ensures { result ≡ fault_of self }
    {
        if !self.known {
            Some(2)
        } else if !self.widths {
            Some(3)
        } else if !self.sides {
            Some(4)
        } else {
            None
        }
    }
}

/// What the rules say of a source: that its port exists, that a literal fits, that it may be read, and
/// its width in bits, 0 where there is no such port.
#[derive(Clone, Copy)]
struct Source {
    known: bool,
    fits: bool,
    readable: bool,
    width: u128,
}

impl Source {
    /// What is kept where the source stands alone as a guard.
    fn alone(self) -> Kept
        ensures { result ≡ kept_alone self }
    {
        Kept {
            known: self.known,
            widths: self.fits && self.width == 1,
            sides: self.readable,
        }
    }

    /// What is kept where the source is compared with another.
    fn compared(self, other: Source) -> Kept
        ensures { result ≡ kept_compared self other }
    {
        Kept {
            known: self.known && other.known,
            widths: self.fits && other.fits && self.width == other.width,
            sides: self.readable && other.readable,
        }
    }
}

/// Whether a literal has a width and fits it.
fn literal_fits(width: u128, value: u128) -> bool
    ensures { result ≡ (is_width width && nat_lt value (2 ^ width)) }
{
    match width_of(width) {
        Some(width) => Bits::new(value, width).is_some(),
        None => false,
    }
}

/// Judges a source.
fn judge_source(ports: &Ports, names: &Names, src: Src<NameId>) -> Source
    requires { SourceHasNumbers names.now src }
    ensures known { result.known ≡ source_exists ports.now (source_tree (text_of names.now) src) }
    ensures fits { result.fits ≡ literal_fits (source_tree (text_of names.now) src) }
    ensures readable { result.readable ≡ source_is_readable ports.now (source_tree (text_of names.now) src) }
    ensures width { result.width ≡ source_width ports.now (source_tree (text_of names.now) src) }
{
    match src {
        Src::Port(id) => match ports.find(names.text(id)) {
            Some(port) => Source {
                known: true,
                fits: true,
                readable: port.readable,
                width: port.width as u128,
            },
            None => Source {
                known: false,
                fits: true,
                readable: false,
                width: 0,
            },
        },
        Src::Lit { width, value } => Source {
            known: true,
            fits: literal_fits(width, value),
            readable: true,
            width,
        },
    }
}

/// Judges a guard. It goes over a run of `!` by a loop, so that the stack holds.
#[cycle(guard_kept)]
fn guard_kept(ports: &Ports, names: &Names, guard: &Guard<NameId>) -> Kept
    requires { GuardHasNumbers names.now guard.now }
    ensures { result ≡ kept_by_guard ports.now (guard_tree (text_of names.now) guard.now) }
{
    let mut inner = guard;
    loop {
        match inner {
            Guard::Not(negated) => inner = negated,
            Guard::All(guards) | Guard::Any(guards) => return guards_kept(ports, names, guards),
            Guard::Read(src) => return judge_source(ports, names, **src).alone(),
            Guard::Test(_, left, right) => {
                let left = judge_source(ports, names, **left);
                let right = judge_source(ports, names, **right);
                return left.compared(right);
            }
        }
    }
}

/// Judges the guards of a list.
#[cycle(guard_kept)]
fn guards_kept(ports: &Ports, names: &Names, guards: &[Guard<NameId>]) -> Kept
    requires { All (GuardHasNumbers names.now) guards.now }
    ensures { result ≡ kept_by_guards ports.now (guards_of (map (guard_tree (text_of names.now)) guards.now)) }
{
    let mut kept = Kept::all();
    for guard in guards {
        kept = kept.and(guard_kept(ports, names, guard));
    }
    kept
}

/// Judges the guard of an assignment, if it has one.
fn option_kept(ports: &Ports, names: &Names, guard: &Option<Guard<NameId>>) -> Kept
    requires { WhenHasNumbers names.now guard.now }
    ensures { result ≡ kept_by_option ports.now (guard_option (text_of names.now) guard.now) }
{
    match guard {
        Some(guard) => guard_kept(ports, names, guard),
        None => Kept::all(),
    }
}

/// What is kept where the source drives the port.
fn driven(dst: Option<Port>, src: Source) -> Kept
    ensures { result ≡ kept_driven dst src }
{
    match dst {
        Some(port) => Kept {
            known: src.known,
            widths: src.fits && port.width as u128 == src.width,
            sides: port.writable && src.readable,
        },
        None => Kept {
            known: false,
            widths: src.fits && src.width == 0,
            sides: false,
        },
    }
}

/// Judges an assignment.
fn set_kept(ports: &Ports, names: &Names, set: &NetAssign) -> Kept
    requires { SetHasNumbers names.now set.now }
    ensures { result ≡ kept_by_set ports.now (set_of names.now set.now) }
{
    let dst = ports.find(names.text(set.dst));
    let src = judge_source(ports, names, set.src);
    driven(dst, src).and(option_kept(ports, names, &set.guard))
}

/// Judges an assignment's line by N2, N3 and N4.
fn check_set(ports: &Ports, names: &Names, set: &NetAssign, item: u64) -> Result<(), NetEnd>
    requires { SetHasNumbers names.now set.now }
    ensures { (before : List PortLine) (cells : List Text)
        → Tells result (first_broken ports.now before cells item (SetOf (set_of names.now set.now) ∷ [])) }
{
    match set_kept(ports, names, set).fault() {
        Some(rule) => Err(NetEnd::Refused { rule, item }),
        None => Ok(()),
    }
}

/// Judges the lines of assignments by N2, N3 and N4. The first of these lines has the item `first`.
pub fn check_sets(
    ports: &Ports,
    names: &Names,
    sets: &[NetAssign],
    first: u64,
) -> Result<(), NetEnd>
    requires numbered { All (SetHasNumbers names.now) sets.now }
    requires counted { first + length sets.now < 2 ^ 64 }
    ensures { (before : List PortLine) (cells : List Text)
        → Tells result (first_broken ports.now before cells first (set_lines names.now sets.now)) }
{
    let mut item = first;
    for set in sets {
        check_set(ports, names, set, item)?;
        item += 1;
    }
    Ok(())
}
