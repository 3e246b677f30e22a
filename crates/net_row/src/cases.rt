//! The programs of a netlist, compiled.
ghost use Rattle.std.specs.Prelude.{◌+◌, length, IfOk};
ghost use Rattle.net_steps.specs.Others.{AreCounted};
ghost use Rattle.net_row.specs.inside.Compiling.{net_of};
ghost use Rattle.net_row.specs.inside.Ports.{IsNumbered};
ghost use Rattle.net_row.specs.Kinds.{kept_in};
ghost use Rattle.net_row.specs.Program.{IsProgram};
ghost use Rattle.net_row.specs.Programs.{AreFit, AreProgramsOf};

use crate::compile::{Numbered, compile, finish, first_slot};
use crate::program::Program;
use crate::programs::{Programs, alone};
use crate::selection::{Selection, select};
use net_steps::{Equality, Operation, Other, ProgramEnd, cut};
use std::alloc::Global;

/// The programs of a netlist.
pub fn compile_all(
    alloc: Global,
    numbered: &Numbered,
    others: &[Other],
) -> Result<Programs, ProgramEnd>
    requires numbered { IsNumbered (net_of numbered.now) numbered.now }
    requires counted { AreCounted others.now }
    ensures are { IfOk result (AreProgramsOf (net_of numbered.now) numbered.now.cells.now) }
    ensures fit { IfOk result
        (AreFit (kept_in numbered.now.cells.now + length (net_of numbered.now).ins) others.now) }
{
    let base = first_slot(numbered)?;
    let made = compile(alloc, numbered, &[], &[])?;
    let selection = select(alloc, &made.steps, base as usize)?;
    let general = finish(alloc, numbered, made)?;
    let mut programs = alone(alloc, general, base as usize, others)?;
    add_cases(alloc, numbered, others, &selection, &mut programs)?;
    let opening = cut(alloc, selection.opening.as_slice())?;
    programs.guess_by(opening, selection.guesses, base as usize, others)?;
    Ok(programs)
}

/// Adds a program for each case of the selection.
fn add_cases(
    alloc: Global,
    numbered: &Numbered,
    others: &[Other],
    selection: &Selection,
    programs: &mut Programs,
) -> Result<(), ProgramEnd>
    requires numbered { IsNumbered (net_of numbered.now) numbered.now }
    requires counted { AreCounted others.now }
    requires are { AreProgramsOf (net_of numbered.now) numbered.now.cells.now programs.old }
    requires fit { AreFit (kept_in numbered.now.cells.now + length (net_of numbered.now).ins) others.now programs.old }
    ensures are { IfOk result (λ _. AreProgramsOf (net_of numbered.now) numbered.now.cells.now programs.new) }
    ensures fit { IfOk result
        (λ _. AreFit (kept_in numbered.now.cells.now + length (net_of numbered.now).ins) others.now programs.new) }
{
    let base = first_slot(numbered)?;
    let opening = selection.opening.as_slice();
    for assumed in &selection.cases {
        let program = case(alloc, numbered, opening, assumed.as_slice())?;
        programs.add(program, base as usize, others)?;
    }
    Ok(())
}

/// The program for the rows in which this holds.
fn case(
    alloc: Global,
    numbered: &Numbered,
    opening: &[Operation],
    assumed: &[Equality],
) -> Result<Program, ProgramEnd>
    requires { IsNumbered (net_of numbered.now) numbered.now }
    ensures { IfOk result (IsProgram (net_of numbered.now) numbered.now.cells.now) }
{
    let made = compile(alloc, numbered, opening, assumed)?;
    finish(alloc, numbered, made)
}
