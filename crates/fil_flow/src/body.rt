//! What the names of a component's body mean, as numbers.
ghost use Rattle.std.specs.Prelude.{◌≡◌, ℕ, List, [], ◌++◌, map, length, slice_get, All, Contains, Some, IsSome, IfOk, OnOk};
ghost use Rattle.std.specs.List.{AllZip};
ghost use Rattle.fil_ast.specs.Items.{scope_after};
ghost use Rattle.fil_ast.specs.Naming.{HasNewNames, IsKnownValue, instance_names, invocation_names};
ghost use Rattle.fil_ast.specs.Numbers.{ComponentHasNumbers, ValueHasNumbers};
ghost use Rattle.fil_ast.specs.Scope.{Instance, Invocation, Scope, input_of, instance_named, invocation_named, result_of, signature_in};
ghost use Rattle.fil_ast.specs.Tree.{Design, ValueTree, InputValue, OutputValue, component_tree, value_tree};
ghost use Rattle.fil_ast.specs.Typing.{LiteralFits};
ghost use Rattle.fil_flow.specs.inside.Body.{Calls, IsBody, IsEarlier, IsCalleeOf, IsSourceOf, data_names, outputs_from, outputs_of, plus_instance, plus_invocation};
ghost use Rattle.fil_flow.specs.declared.earlier.Earlier.{Earlier};

use crate::earlier::{Earlier, port_names};
use crate::plan::{Callee, Source};
use fil_ast::{FilComp, Value};
use fil_sig::add_name;
use hw_bits::{Bits, Memory};
use hw_names::Names;
use std::alloc::Global;

/// An invocation: its callee, and the place of the first of its outputs.
#[derive(Clone, Copy)]
struct Invoked {
    callee: Callee,
    first: usize,
}

/// The names of a component's body so far: inputs, instances with what they are made of, and invocations.
#[derive(Drop)]
pub(crate) struct Body {
    inputs: Names,
    instances: Names,
    made: Vec<Callee>,
    invocations: Names,
    invoked: Vec<Invoked>,
    places: usize,
}

impl Body {
    /// Nothing but the inputs.
    pub(crate) fn new(alloc: Global, names: &Names, comp: &FilComp) -> Result<Body, Memory>
        requires { ComponentHasNumbers names.now comp.now }
        ensures { (earlier : Earlier) (before : Design) → IsEarlier before earlier → HasNewNames before (component_tree names.now comp.now)
            → IfOk result (IsBody earlier (scope_after before (component_tree names.now comp.now) []) (map InputValue (data_names (component_tree names.now comp.now).ins))) }
    {
        let inputs = port_names(alloc, names, &comp.ins)?;
        let places = inputs.len();
        Ok(Body {
            inputs,
            instances: names.beside(),
            made: Vec::new(alloc),
            invocations: names.beside(),
            invoked: Vec::new(alloc),
            places,
        })
    }

    /// Puts an instance of a new name last.
    pub(crate) fn add_instance(&mut self, name: &[u8], callee: Callee) -> Result<(), Memory>
        ensures { (earlier : Earlier) (scope : Scope) (held : List ValueTree) (i : Instance) → IsBody earlier scope held self.old
            → i.name ≡ name.now → IsCalleeOf earlier i callee → IsSome (signature_in scope.comps i.made i.params)
            → ¬ Contains (instance_names scope.instances) i.name
            → OnOk result (IsBody earlier (plus_instance scope i) held self.new) }
    {
        let _new = add_name(&mut self.instances, name)?;
        self.made.push(callee)?;
        Ok(())
    }

    /// Puts an invocation of a new name last, and its outputs into the next places.
    pub(crate) fn add_invocation(
        &mut self,
        earlier: &Earlier,
        name: &[u8],
        callee: Callee,
    ) -> Result<(), Memory>
        requires { (scope : Scope) × (held : List ValueTree) × IsBody earlier.now scope held self.old × ¬ Contains (invocation_names scope.invocations) name.now }
        ensures { (scope : Scope) (held : List ValueTree) (v : Invocation) (i : Instance) → IsBody earlier.now scope held self.old
            → v.name ≡ name.now → ¬ Contains (invocation_names scope.invocations) v.name
            → instance_named scope.instances v.inst ≡ Some i → IsCalleeOf earlier.now i callee
            → OnOk result (IsBody earlier.now (plus_invocation scope v) (held ++ outputs_from v.name (outputs_of earlier.now callee)) self.new) }
    {
        let _new = add_name(&mut self.invocations, name)?;
        let first = self.places;
        self.invoked.push(Invoked { callee, first })?;
        // There are fewer than 2^32 invocations, each with fewer than 2^32 outputs.
        prove!(self.invocations.len() <= u32::MAX as usize);
        self.places += earlier.out_count(callee);
        Ok(())
    }

    /// What the instance of a known name is made of.
    pub(crate) fn callee(&self, name: &[u8]) -> Callee
        requires { (earlier : Earlier) × (scope : Scope) × (held : List ValueTree) × IsBody earlier scope held self.now × IsSome (instance_named scope.instances name.now) }
        ensures { (earlier : Earlier) (scope : Scope) (held : List ValueTree) (i : Instance) → IsBody earlier scope held self.now
            → instance_named scope.instances name.now ≡ Some i → IsCalleeOf earlier i result }
    {
        match self.instances.find(name) {
            Some(number) => self.made[number.0 as usize],
            None => unreachable!(),
        }
    }

    /// The place of the input of a known name.
    fn input_place(&self, name: &[u8]) -> usize
        requires { (earlier : Earlier) × (scope : Scope) × (held : List ValueTree) × IsBody earlier scope held self.now × IsSome (input_of scope name.now) }
        ensures { slice_get self.now.inputs result ≡ Some name.now }
    {
        match self.inputs.find(name) {
            Some(number) => number.0 as usize,
            None => unreachable!(),
        }
    }

    /// The invocation of a known name.
    fn invocation(&self, name: &[u8]) -> Invoked
        requires { (earlier : Earlier) × (scope : Scope) × (held : List ValueTree) × IsBody earlier scope held self.now × IsSome (invocation_named scope.invocations name.now) }
        ensures calls { (earlier : Earlier) (scope : Scope) (held : List ValueTree) (v : Invocation) → IsBody earlier scope held self.now
            → invocation_named scope.invocations name.now ≡ Some v → Calls earlier scope.instances v result }
        ensures stands { (n : ℕ) × (slice_get self.now.invocations n ≡ Some name.now) × (slice_get self.now.invoked.items n ≡ Some result) }
    {
        match self.invocations.find(name) {
            Some(number) => self.invoked[number.0 as usize],
            None => unreachable!(),
        }
    }

    /// The place of a known output of an invocation.
    fn output_place(&self, earlier: &Earlier, invocation: &[u8], port: &[u8]) -> usize
        requires { (scope : Scope) × (held : List ValueTree) × IsBody earlier.now scope held self.now × IsSome (result_of scope invocation.now port.now) }
        ensures { (scope : Scope) (held : List ValueTree) → IsBody earlier.now scope held self.now
            → slice_get held result ≡ Some (OutputValue invocation.now port.now) }
    {
        let invoked = self.invocation(invocation);
        match earlier.out_number(invoked.callee, port) {
            Some(number) => invoked.first + number,
            None => unreachable!(),
        }
    }

    /// Where a known value comes from.
    pub(crate) fn source(&self, names: &Names, earlier: &Earlier, value: Value) -> Source
        requires numbers { ValueHasNumbers names.now value }
        requires known { (scope : Scope) × (held : List ValueTree) × IsBody earlier.now scope held self.now × IsKnownValue scope (value_tree names.now value) }
        requires fits { LiteralFits (value_tree names.now value) }
        ensures { (scope : Scope) (held : List ValueTree) → IsBody earlier.now scope held self.now → IsSourceOf held (value_tree names.now value) result }
    {
        match value {
            Value::Port(port) => Source::Place(self.input_place(names.text(port))),
            Value::Out(invocation, port) => {
                let invocation = names.text(invocation);
                Source::Place(self.output_place(earlier, invocation, names.text(port)))
            }
            Value::Lit { width, value } => Source::Literal(Bits::wrap(value, width as u8)),
        }
    }

    /// Where each of these known values comes from.
    pub(crate) fn sources(
        &self,
        alloc: Global,
        names: &Names,
        earlier: &Earlier,
        values: &[Value],
    ) -> Result<Vec<Source>, Memory>
        requires numbers { All (ValueHasNumbers names.now) values.now }
        requires known { (scope : Scope) × (held : List ValueTree) × IsBody earlier.now scope held self.now × All (IsKnownValue scope) (map (value_tree names.now) values.now) }
        requires fit { All LiteralFits (map (value_tree names.now) values.now) }
        ensures { (scope : Scope) (held : List ValueTree) → IsBody earlier.now scope held self.now
            → IfOk result (λ sources. AllZip (IsSourceOf held) (map (value_tree names.now) values.now) sources.items) }
    {
        let mut sources = Vec::new(alloc);
        for value in values {
            sources.push(self.source(names, earlier, *value))?;
        }
        Ok(sources)
    }
}
