//! The guards of a netlist made flat.
ghost use Rattle.std.specs.Prelude.{◌≡◌, ◌+◌, ◌++◌, [], ◌∷◌, length, map, All, IfOk};
ghost use Rattle.hw_names.specs.Name.{text_of};
ghost use Rattle.hw_prims.specs.Row.{Row};
ghost use Rattle.net_core.specs.Guard.{NoGuards, guards_of, guard_tree, guard_option, holds};
ghost use Rattle.net_core.specs.Netlist.{netlist_of};
ghost use Rattle.net_core.specs.Numbers.{HasNumbers, GuardHasNumbers, WhenHasNumbers};
ghost use Rattle.net_core.specs.Rules.{IsValid};
ghost use Rattle.net_core.specs.Table.{IsTableOf};
ghost use Rattle.net_sim.specs.inside.Flattening.{IsKnownSource, EachSource, EachSourceOf, EachOptionSource, AreExits, AddsTests, AddsGuard, joined, exit_of, exits_before};
ghost use Rattle.net_sim.specs.Tests.{AreGuards};

use crate::guards::{FALSE, FIRST, FlatGuards, TRUE, Test};
use crate::plan::{Source, source_of};
use hw_bits::{Bits, Memory};
use hw_names::{NameId, Names};
use net_core::{Cmp, Guard, Net, Table};
use std::alloc::Global;

/// Where to go on where a guard is true, and where it is not: the numbers of tests, or ends.
#[derive(Clone, Copy, Debug)]
pub struct Exits {
    pub yes: u32,
    pub no: u32,
}

impl Exits {
    /// Those of the negated guard.
    fn negated(self) -> Exits
        ensures { result ≡ record { yes = self.no; no = self.yes } }
    {
        Exits {
            yes: self.no,
            no: self.yes,
        }
    }
}

/// How the guards of a list make one.
#[derive(Clone, Copy, Debug)]
pub enum Join {
    /// All are true.
    All,
    /// One is.
    Any,
}

impl Join {
    /// Where a guard of a list leads, if the guards after it begin at `others`.
    fn exits_before(self, exits: Exits, others: u32) -> Exits
        ensures { result ≡ exits_before self exits others }
    {
        match self {
            Join::All => Exits {
                yes: others,
                no: exits.no,
            },
            Join::Any => Exits {
                yes: exits.yes,
                no: others,
            },
        }
    }

    /// Where an empty list leads.
    fn of_none(self, exits: Exits) -> u32
        ensures { (row : Row) → result ≡ exit_of exits (joined self row NoGuards) }
    {
        match self {
            Join::All => exits.yes,
            Join::Any => exits.no,
        }
    }
}

/// The guards of the netlist, whose table this is.
pub fn flatten(alloc: Global, net: &Net, table: &Table) -> Result<FlatGuards, Memory>
    requires valid { IsValid (netlist_of net.now) }
    requires numbers { HasNumbers net.now }
    requires table { IsTableOf (netlist_of net.now) table.now }
    ensures { IfOk result (λ guards. AreGuards (netlist_of net.now) guards.tests.items guards.starts.items) }
{
    let mut tests = Vec::new(alloc);
    let mut starts = Vec::new(alloc);
    for set in &net.sets {
        let start = add_option(&mut tests, &table.names, &net.names, &set.guard)?;
        starts.push(start)?;
    }
    Ok(FlatGuards { tests, starts })
}

/// Adds the tests of an assignment's guard, if it has one; the answer is where it begins.
fn add_option(
    tests: &mut Vec<Test>,
    ports: &Names,
    names: &Names,
    guard: &Option<Guard<NameId>>,
) -> Result<u32, Memory>
    requires numbers { WhenHasNumbers names.now guard.now }
    requires sources { EachOptionSource (IsKnownSource ports.now) (guard_option (text_of names.now) guard.now) }
    ensures { IfOk result
        (AddsGuard ports.now tests.old.items tests.new.items (guard_option (text_of names.now) guard.now)) }
{
    match guard {
        Some(guard) => {
            let ends = Exits {
                yes: TRUE,
                no: FALSE,
            };
            add_guard(tests, ports, names, guard, ends)
        }
        None => Ok(TRUE),
    }
}

/// Adds the tests of a guard, the last first, since each leads on to what is there; the answer is where it begins.
/// It goes over a run of `!` by a loop, so that the stack holds.
#[cycle(add_guard)]
fn add_guard(
    tests: &mut Vec<Test>,
    ports: &Names,
    names: &Names,
    guard: &Guard<NameId>,
    exits: Exits,
) -> Result<u32, Memory>
    requires numbers { GuardHasNumbers names.now guard.now }
    requires sources { EachSource (IsKnownSource ports.now) (guard_tree (text_of names.now) guard.now) }
    requires exits { AreExits tests.old.items exits }
    ensures { IfOk result
        (AddsTests ports.now tests.old.items tests.new.items exits (λ row. holds row (guard_tree (text_of names.now) guard.now))) }
{
    let mut ways = exits;
    let mut inner = guard;
    loop {
        match inner {
            Guard::Not(under) => {
                ways = ways.negated();
                inner = under;
            }
            Guard::All(guards) => return add_list(tests, ports, names, Join::All, guards, ways),
            Guard::Any(guards) => return add_list(tests, ports, names, Join::Any, guards, ways),
            Guard::Read(src) => {
                let left = source_of(ports, names, src);
                let right = Source::Fixed(Bits::wrap(1, 1));
                return add_test(tests, test(Cmp::Eq, left, right, ways));
            }
            Guard::Test(op, left, right) => {
                let left = source_of(ports, names, left);
                let right = source_of(ports, names, right);
                return add_test(tests, test(*op, left, right, ways));
            }
        }
    }
}

/// Adds the tests of the guards of a list; the answer is where it begins.
#[cycle(add_guard)]
fn add_list(
    tests: &mut Vec<Test>,
    ports: &Names,
    names: &Names,
    join: Join,
    guards: &[Guard<NameId>],
    exits: Exits,
) -> Result<u32, Memory>
    requires numbers { All (GuardHasNumbers names.now) guards.now }
    requires sources { EachSourceOf (IsKnownSource ports.now) (guards_of (map (guard_tree (text_of names.now)) guards.now)) }
    requires exits { AreExits tests.old.items exits }
    ensures { IfOk result
        (AddsTests ports.now tests.old.items tests.new.items exits (λ row. joined join row (guards_of (map (guard_tree (text_of names.now)) guards.now)))) }
{
    let mut start = join.of_none(exits);
    for place in (0..guards.len()).rev() {
        let ways = join.exits_before(exits, start);
        start = add_guard(tests, ports, names, &guards[place], ways)?;
    }
    Ok(start)
}

/// A test that leads to these exits.
fn test(op: Cmp, left: Source, right: Source, exits: Exits) -> Test
    ensures { result ≡ record { op = op; left = left; right = right; yes = exits.yes; no = exits.no } }
{
    Test {
        op,
        left,
        right,
        yes: exits.yes,
        no: exits.no,
    }
}

/// Adds a test; the answer is its number.
fn add_test(tests: &mut Vec<Test>, test: Test) -> Result<u32, Memory>
    ensures items { IfOk result (λ _. tests.new.items ≡ tests.old.items ++ test ∷ []) }
    ensures number { IfOk result (λ number. number ≡ length tests.old.items + 2) }
{
    let place = tests.len();
    if place >= (u32::MAX - FIRST) as usize {
        return Err(Memory);
    }
    tests.push(test)?;
    Ok(place as u32 + FIRST)
}
