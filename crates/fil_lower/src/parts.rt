//! The instance and the invocation of a statement.
ghost use Rattle.std.specs.Prelude.{◌≡◌, List, All, IfSome, option_map};
ghost use Rattle.hw_names.specs.Name.{Text};
ghost use Rattle.fil_ast.specs.Limits.{KeepsStatementLimit, KeepsTimeLimit};
ghost use Rattle.fil_ast.specs.Numbers.{StatementHasNumbers};
ghost use Rattle.fil_ast.specs.Scope.{instances_at, invocations_at};
ghost use Rattle.fil_ast.specs.Tree.{statement_tree};
ghost use Rattle.fil_lower.specs.inside.Parts.{InstanceHasNumbers, InvocationHasNumbers, at_most_one, instance_shown, invocation_shown};

use fil_ast::{Stmt, Time, Value};
use hw_names::NameId;

/// An instance, and what it is made of.
#[derive(Clone, Copy)]
pub(crate) struct NewInstance<'a> {
    pub name: NameId,
    pub comp: NameId,
    pub params: &'a [u128],
}

/// An invocation of an instance, and what it gives.
#[derive(Clone, Copy)]
pub(crate) struct Invocation<'a> {
    pub name: NameId,
    pub inst: NameId,
    pub at: &'a [Time],
    pub args: &'a [Value],
}

/// The instance that a statement makes.
pub(crate) fn made(stmt: &Stmt) -> Option<NewInstance<'_>>
    ensures shown { (names : List Text) → at_most_one (option_map (instance_shown names) result) ≡ instances_at (statement_tree names stmt.now) }
    ensures numbers { (names : List Text) → StatementHasNumbers names stmt.now → IfSome result (InstanceHasNumbers names) }
{
    match stmt {
        Stmt::New { name, comp, params } => Some(NewInstance {
            name: *name,
            comp: *comp,
            params: params.as_slice(),
        }),
        Stmt::Both {
            name,
            comp,
            params,
            ..
        } => Some(NewInstance {
            name: *name,
            comp: *comp,
            params: params.as_slice(),
        }),
        Stmt::Call { .. } | Stmt::Set { .. } => None,
    }
}

/// The invocation of a statement; a statement that makes an instance and invokes it has one name for both.
pub(crate) fn invoked(stmt: &Stmt) -> Option<Invocation<'_>>
    ensures shown { (names : List Text) → at_most_one (option_map (invocation_shown names) result) ≡ invocations_at (statement_tree names stmt.now) }
    ensures numbers { (names : List Text) → StatementHasNumbers names stmt.now → IfSome result (InvocationHasNumbers names) }
    ensures small { KeepsStatementLimit stmt.now → IfSome result (λ v. All KeepsTimeLimit v.at.now) }
{
    match stmt {
        Stmt::Call {
            name,
            inst,
            at,
            args,
        } => Some(Invocation {
            name: *name,
            inst: *inst,
            at: at.as_slice(),
            args: args.as_slice(),
        }),
        Stmt::Both { name, at, args, .. } => Some(Invocation {
            name: *name,
            inst: *name,
            at: at.as_slice(),
            args: args.as_slice(),
        }),
        Stmt::New { .. } | Stmt::Set { .. } => None,
    }
}
