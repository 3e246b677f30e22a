//! The invocations of a component by name.
ghost use Rattle.std.specs.Prelude.{◌≡◌, List, [], ◌∷◌, ◌++◌, flat_map, Contains, IfOk, OnOk};
ghost use Rattle.std.specs.Option.{option_map_or};
ghost use Rattle.hw_names.specs.Name.{Text, text_of};
ghost use Rattle.fil_ast.specs.Naming.{invocation_names};
ghost use Rattle.fil_ast.specs.Numbers.{ComponentHasNumbers, IsNumberOf};
ghost use Rattle.fil_ast.specs.Rules.{KeepsComponent, all_rules};
ghost use Rattle.fil_ast.specs.Scope as tree;
ghost use Rattle.fil_ast.specs.Scope.{invocation_named, invocations_at};
ghost use Rattle.fil_ast.specs.Tree.{Design, component_tree};
ghost use Rattle.fil_lower.specs.inside.Place.{ShowsCalls};

use crate::parts::invoked;
use fil_ast::FilComp;
use fil_sig::add_name;
use hw_bits::Memory;
use hw_names::{NameId, Names};
use std::alloc::Global;

/// The names of a component's invocations, in their order, each with its instance.
#[derive(Drop)]
pub(crate) struct Calls {
    names: Names,
    insts: Vec<NameId>,
}

impl Calls {
    /// The invocations of a component.
    pub(crate) fn of_component(
        alloc: Global,
        names: &Names,
        comp: &FilComp,
    ) -> Result<Calls, Memory>
        requires numbers { ComponentHasNumbers names.now comp.now }
        requires kept { (earlier : Design) × KeepsComponent all_rules earlier (component_tree names.now comp.now) }
        ensures { IfOk result (ShowsCalls names.now (flat_map invocations_at (component_tree names.now comp.now).body)) }
    {
        let mut calls = Calls {
            names: names.beside(),
            insts: Vec::new(alloc),
        };
        for stmt in &comp.body {
            if let Some(call) = invoked(stmt) {
                calls.add(names.text(call.name), call.inst)?;
            }
        }
        Ok(calls)
    }

    /// Puts an invocation of a new name last.
    fn add(&mut self, name: &[u8], inst: NameId) -> Result<(), Memory>
        ensures { (names : List Text) (before : List tree.Invocation) (v : tree.Invocation) → ShowsCalls names before self.old
            → v.name ≡ name.now → v.inst ≡ text_of names inst → IsNumberOf names inst → ¬ Contains (invocation_names before) v.name
            → OnOk result (ShowsCalls names (before ++ v ∷ []) self.new) }
    {
        let _new = add_name(&mut self.names, name)?;
        self.insts.push(inst)?;
        Ok(())
    }

    /// The instance of the invocation of a known name.
    pub(crate) fn inst(&self, name: &[u8]) -> NameId
        requires { (names : List Text) × (invocations : List tree.Invocation) × ShowsCalls names invocations self.now × Contains (invocation_names invocations) name.now }
        ensures shown { (names : List Text) (invocations : List tree.Invocation) → ShowsCalls names invocations self.now
            → text_of names result ≡ option_map_or (λ (v : tree.Invocation). v.inst) (invocation_named invocations name.now) [] }
        ensures numbered { (names : List Text) (invocations : List tree.Invocation) → ShowsCalls names invocations self.now → IsNumberOf names result }
    {
        match self.names.find(name) {
            Some(number) => self.insts[number.0 as usize],
            None => unreachable!(),
        }
    }
}
