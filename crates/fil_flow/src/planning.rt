//! Makes the plan of a component.
ghost use Rattle.std.specs.Prelude.{◌≡◌, List, [], ◌∷◌, ◌++◌, All, Contains, IsSome, IfOk, OnOk};
ghost use Rattle.std.specs.List.{AllZip};
ghost use Rattle.hw_names.specs.Name.{text_of};
ghost use Rattle.fil_ast.specs.Items.{scope_after};
ghost use Rattle.fil_ast.specs.Naming.{HasNewNames, instance_names};
ghost use Rattle.fil_ast.specs.Numbers.{ComponentHasNumbers, IsNumberOf, StatementHasNumbers, ValueHasNumbers};
ghost use Rattle.fil_ast.specs.Rules.{KeepsComponent, all_rules};
ghost use Rattle.fil_ast.specs.Scope.{Instance, Invocation, Scope, signature_in};
ghost use Rattle.fil_ast.specs.Tree.{Connect, Design, Literal, Statement, component_tree, statement_tree, value_tree};
ghost use Rattle.fil_ast.specs.Typing.{HasWidths, IsWidth};
ghost use Rattle.fil_ast.specs.declared.tree.FilPort.{FilPort};
ghost use Rattle.fil_flow.specs.inside.Body.{IsEarlier, IsSourceOf, plus_instance, plus_invocation};
ghost use Rattle.fil_flow.specs.inside.Planning.{CanInvoke, Invokes, IsPlanning, KeepsStatement, grown};
ghost use Rattle.fil_flow.specs.Shown.{ShowsPlan};
ghost use Rattle.fil_flow.specs.declared.earlier.Earlier.{Earlier};

use crate::body::Body;
use crate::earlier::{Earlier, port_names};
use crate::plan::{Call, Plan, Source};
use fil_ast::{FilComp, FilPort, Stmt, Value};
use hw_bits::{Bits, Memory};
use hw_names::{NameId, Names};
use std::alloc::Global;

/// A component whose body is gone through up to a statement: what its names mean so far, and its plan so far.
#[derive(Drop)]
struct Planning {
    body: Body,
    calls: Vec<Call>,
    out_names: Names,
    outs: Vec<Source>,
}

/// A zero for each of these ports, which stands until the port is connected.
fn zeros(alloc: Global, ports: &[FilPort]) -> Result<Vec<Source>, Memory>
    requires { All (λ (p : FilPort). IsWidth p.width) ports.now }
    ensures { IfOk result (λ found. AllZip (λ (p : FilPort). IsSourceOf [] (Literal p.width 0)) ports.now found.items) }
{
    let mut found = Vec::new(alloc);
    for port in ports {
        found.push(Source::Literal(Bits::wrap(0, port.width as u8)))?;
    }
    Ok(found)
}

impl Planning {
    /// Nothing is gone through.
    fn new(alloc: Global, names: &Names, comp: &FilComp) -> Result<Planning, Memory>
        requires numbers { ComponentHasNumbers names.now comp.now }
        requires wide { HasWidths (component_tree names.now comp.now) }
        ensures { (earlier : Earlier) (before : Design) → IsEarlier before earlier → HasNewNames before (component_tree names.now comp.now)
            → IfOk result (IsPlanning earlier (scope_after before (component_tree names.now comp.now) []) []) }
    {
        Ok(Planning {
            body: Body::new(alloc, names, comp)?,
            calls: Vec::new(alloc),
            out_names: port_names(alloc, names, &comp.outs)?,
            outs: zeros(alloc, &comp.outs)?,
        })
    }

    /// Puts an instance last.
    fn make(
        &mut self,
        names: &Names,
        earlier: &Earlier,
        name: NameId,
        comp: NameId,
        params: &[u128],
    ) -> Result<(), Memory>
        requires name { IsNumberOf names.now name }
        requires comp { IsNumberOf names.now comp }
        requires known { (before : Design) × IsEarlier before earlier.now × IsSome (signature_in before (text_of names.now comp) params.now) }
        ensures { (scope : Scope) (done : List Statement) (i : Instance) → IsPlanning earlier.now scope done self.old
            → i.name ≡ text_of names.now name → i.made ≡ text_of names.now comp → i.params ≡ params.now
            → IsSome (signature_in scope.comps i.made i.params) → ¬ Contains (instance_names scope.instances) i.name
            → OnOk result (IsPlanning earlier.now (plus_instance scope i) done self.new) }
    {
        let callee = earlier.callee(names.text(comp), params);
        self.body.add_instance(names.text(name), callee)
    }

    /// Puts an invocation of an instance last, and its call.
    fn invoke(
        &mut self,
        alloc: Global,
        names: &Names,
        earlier: &Earlier,
        name: NameId,
        inst: NameId,
        args: &[Value],
    ) -> Result<(), Memory>
        requires name { IsNumberOf names.now name }
        requires inst { IsNumberOf names.now inst }
        requires args { All (ValueHasNumbers names.now) args.now }
        requires known { (scope : Scope) × (done : List Statement) × (v : Invocation) × IsPlanning earlier.now scope done self.old × Invokes names.now name inst args.now v × CanInvoke scope v }
        ensures { (scope : Scope) (done : List Statement) (v : Invocation) → IsPlanning earlier.now scope done self.old
            → Invokes names.now name inst args.now v → CanInvoke scope v
            → OnOk result (IsPlanning earlier.now (plus_invocation scope v) done self.new) }
    {
        let callee = self.body.callee(names.text(inst));
        let args = self.body.sources(alloc, names, earlier, args)?;
        self.body.add_invocation(earlier, names.text(name), callee)?;
        self.calls.push(Call { callee, args })?;
        Ok(())
    }

    /// Connects an output to a value.
    fn connect(&mut self, names: &Names, earlier: &Earlier, output: NameId, value: Value)
        requires output { IsNumberOf names.now output }
        requires value { ValueHasNumbers names.now value }
        requires known { (scope : Scope) × (done : List Statement) × IsPlanning earlier.now scope done self.old
            × KeepsStatement scope done (Connect (text_of names.now output) (value_tree names.now value)) }
        ensures { (scope : Scope) (done : List Statement) → IsPlanning earlier.now scope done self.old
            → KeepsStatement scope done (Connect (text_of names.now output) (value_tree names.now value))
            → IsPlanning earlier.now scope (done ++ Connect (text_of names.now output) (value_tree names.now value) ∷ []) self.new }
    {
        match self.out_names.find(names.text(output)) {
            Some(number) => {
                self.outs[number.0 as usize] = self.body.source(names, earlier, value);
            }
            None => unreachable!(),
        }
    }

    /// Goes through the next statement.
    fn add(
        &mut self,
        alloc: Global,
        names: &Names,
        earlier: &Earlier,
        stmt: &Stmt,
    ) -> Result<(), Memory>
        requires numbers { StatementHasNumbers names.now stmt.now }
        requires known { (scope : Scope) × (done : List Statement) × IsPlanning earlier.now scope done self.old × KeepsStatement scope done (statement_tree names.now stmt.now) }
        ensures { (scope : Scope) (done : List Statement) → IsPlanning earlier.now scope done self.old → KeepsStatement scope done (statement_tree names.now stmt.now)
            → OnOk result (IsPlanning earlier.now (grown scope (statement_tree names.now stmt.now)) (done ++ statement_tree names.now stmt.now ∷ []) self.new) }
    {
        match stmt {
            Stmt::New { name, comp, params } => self.make(names, earlier, *name, *comp, params),
            Stmt::Call {
                name,
                inst,
                args,
                ..
            } => self.invoke(alloc, names, earlier, *name, *inst, args),
            Stmt::Both {
                name,
                comp,
                params,
                args,
                ..
            } => {
                self.make(names, earlier, *name, *comp, params)?;
                self.invoke(alloc, names, earlier, *name, *name, args)
            }
            Stmt::Set { dst, value } => {
                self.connect(names, earlier, *dst, *value);
                Ok(())
            }
        }
    }
}

/// The plan of a component that keeps the rules, after those before it.
pub(crate) fn plan_of(
    alloc: Global,
    names: &Names,
    earlier: &Earlier,
    comp: &FilComp,
) -> Result<Plan, Memory>
    requires numbers { ComponentHasNumbers names.now comp.now }
    requires kept { (before : Design) × IsEarlier before earlier.now × KeepsComponent all_rules before (component_tree names.now comp.now) }
    ensures { (before : Design) → IsEarlier before earlier.now → KeepsComponent all_rules before (component_tree names.now comp.now)
        → IfOk result (ShowsPlan before (component_tree names.now comp.now)) }
{
    let mut planning = Planning::new(alloc, names, comp)?;
    for stmt in &comp.body {
        planning.add(alloc, names, earlier, stmt)?;
    }
    Ok(Plan {
        calls: planning.calls,
        outs: planning.outs,
    })
}
