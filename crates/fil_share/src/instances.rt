//! The instances of a component, with the signatures of what they are made of.
ghost use Rattle.std.specs.Prelude.{◌≡◌, ◌<◌, ◌↔◌, List, ◌∷◌, [], ◌++◌, Some, length, map, take, option_map, slice_get, All, Contains, IfOk, IfSome, IsSome, OnOk};
ghost use Rattle.hw_names.specs.Name.{Text};
ghost use Rattle.fil_ast.specs.Limits.{KeepsLimits};
ghost use Rattle.fil_ast.specs.Naming.{component_names, instance_names};
ghost use Rattle.fil_ast.specs.Numbers.{ComponentHasNumbers, StatementHasNumbers};
ghost use Rattle.fil_ast.specs.Scope.{Instance, Scope, instance_signature, instances_at, signature_in};
ghost use Rattle.fil_ast.specs.Signature.{Signature};
ghost use Rattle.fil_ast.specs.Tree.{Component, Design, component_tree, design_of, statement_tree};
ghost use Rattle.fil_ast.specs.Wires.{whole_scope};
ghost use Rattle.fil_sig.specs.Seen.{seen};
ghost use Rattle.fil_share.specs.Instances.{CanBeMade, IsNew, IsSmall, MakesInstances, ShowsScope, ShowsInstances};

use crate::callees::callee;
use fil_ast::{FilComp, FilOk, Stmt};
use fil_sig::{TimeSig, add_name};
use hw_bits::Memory;
use hw_names::Names;
use std::alloc::Global;

/// The instances of a component by name, each with the signature of what it is made of.
#[derive(Drop)]
pub struct Instances {
    names: Names,
    sigs: Vec<TimeSig>,
}

impl Instances {
    /// The instances of the component with this number, where `known` are the names of the components before it.
    pub fn make(alloc: Global, ok: &FilOk, known: &Names, comp: usize) -> Result<Instances, Memory>
        requires comp { comp < length ok.now.comps.items }
        requires known { known.now ≡ component_names (take comp (design_of ok.now)) }
        ensures { (c : Component) → slice_get (design_of ok.now) comp ≡ Some c
            → IfOk result (λ instances. ShowsScope instances (whole_scope (take comp (design_of ok.now)) c)) }
    {
        let design = ok.design();
        Instances::of_body(
            alloc,
            &design.names,
            known,
            &design.comps[..comp],
            &design.comps[comp],
        )
    }

    /// The instances of a component, after these, which have the names `known`.
    fn of_body(
        alloc: Global,
        names: &Names,
        known: &Names,
        earlier: &[FilComp],
        comp: &FilComp,
    ) -> Result<Instances, Memory>
        requires numbers { All (ComponentHasNumbers names.now) earlier.now }
        requires small { All KeepsLimits earlier.now }
        requires known { known.now ≡ component_names (map (component_tree names.now) earlier.now) }
        requires own_numbers { ComponentHasNumbers names.now comp.now }
        requires makes { MakesInstances (map (component_tree names.now) earlier.now) (component_tree names.now comp.now).body }
        ensures { IfOk result (λ instances. ShowsScope instances (whole_scope (map (component_tree names.now) earlier.now) (component_tree names.now comp.now))) }
    {
        let mut instances = Instances {
            names: names.beside(),
            sigs: Vec::new(alloc),
        };
        for stmt in &comp.body {
            instances.add_made(alloc, names, known, earlier, stmt)?;
        }
        Ok(instances)
    }

    /// Puts the instance last that a statement makes.
    fn add_made(
        &mut self,
        alloc: Global,
        names: &Names,
        known: &Names,
        earlier: &[FilComp],
        stmt: &Stmt,
    ) -> Result<(), Memory>
        requires numbers { All (ComponentHasNumbers names.now) earlier.now }
        requires small { All KeepsLimits earlier.now }
        requires known { known.now ≡ component_names (map (component_tree names.now) earlier.now) }
        requires own_numbers { StatementHasNumbers names.now stmt.now }
        requires made { All (CanBeMade (map (component_tree names.now) earlier.now)) (instances_at (statement_tree names.now stmt.now)) }
        ensures { (instances : List Instance) → ShowsInstances self.old (map (component_tree names.now) earlier.now) instances
            → All (IsNew instances) (instances_at (statement_tree names.now stmt.now))
            → OnOk result (ShowsInstances self.new (map (component_tree names.now) earlier.now) (instances ++ instances_at (statement_tree names.now stmt.now))) }
    {
        match stmt {
            Stmt::New { name, comp, params } => {
                let sig = callee(alloc, names, known, earlier, names.text(*comp), params)?;
                self.add(names.text(*name), sig)
            }
            Stmt::Both {
                name,
                comp,
                params,
                ..
            } => {
                let sig = callee(alloc, names, known, earlier, names.text(*comp), params)?;
                self.add(names.text(*name), sig)
            }
            Stmt::Call { .. } | Stmt::Set { .. } => Ok(()),
        }
    }

    /// Puts an instance of a new name last.
    fn add(&mut self, name: &[u8], sig: TimeSig) -> Result<(), Memory>
        ensures { (comps : Design) (instances : List Instance) (i : Instance) → ShowsInstances self.old comps instances
            → i.name ≡ name.now → signature_in comps i.made i.params ≡ Some (seen sig) → IsSmall sig → IsNew instances i
            → OnOk result (ShowsInstances self.new comps (instances ++ i ∷ [])) }
    {
        let _new = add_name(&mut self.names, name)?;
        self.sigs.push(sig)?;
        Ok(())
    }

    /// How many instances there are.
    pub fn len(&self) -> usize
        ensures { (scope : Scope) → ShowsScope self.now scope → result ≡ length scope.instances }
    {
        self.names.len()
    }

    /// The number of the instance of this name, counted from 0 in their order.
    pub fn number(&self, name: &[u8]) -> Option<usize>
        ensures at { (scope : Scope) → ShowsScope self.now scope → IfSome result (λ number. slice_get (instance_names scope.instances) number ≡ Some name.now) }
        ensures present { (scope : Scope) → ShowsScope self.now scope → IsSome result ↔ Contains (instance_names scope.instances) name.now }
    {
        Some(self.names.find(name)?.0 as usize)
    }

    /// The signatures of what the instances are made of, in their order.
    pub fn sigs(&self) -> &[TimeSig]
        ensures { (scope : Scope) (name : Text) (sig : Signature) → ShowsScope self.now scope → instance_signature scope name ≡ Some sig
            → Contains (map seen result.now) sig }
    {
        self.sigs.as_slice()
    }

    /// The signature of the instance of this name.
    pub fn sig(&self, name: &[u8]) -> Option<&TimeSig>
        ensures meaning { (scope : Scope) → ShowsScope self.now scope → option_map (λ sig. seen sig.now) result ≡ instance_signature scope name.now }
        ensures small { (scope : Scope) → ShowsScope self.now scope → IfSome result (λ sig. IsSmall sig.now) }
    {
        let number = self.names.find(name)?;
        self.sigs.get(number.0 as usize)
    }
}
