//! The components before one, by their numbers.
ghost use Rattle.std.specs.Prelude.{◌≡◌, ◌^◌, ◌<◌, [], ◌∷◌, ◌++◌, Some, length, map, slice_get, All, Contains, IsSome, IfOk, IfSome, OnOk};
ghost use Rattle.hw_names.specs.Name.{AreDistinct, text_of};
ghost use Rattle.hw_prims.specs.Table.{IsMade, prim_of};
ghost use Rattle.fil_ast.specs.Numbers.{ComponentHasNumbers, PortHasNumbers};
ghost use Rattle.fil_ast.specs.Rules.{KeepsComponent, all_rules};
ghost use Rattle.fil_ast.specs.Scope.{signature_in};
ghost use Rattle.fil_ast.specs.Tree.{Design, component_tree, port_tree};
ghost use Rattle.fil_flow.specs.inside.Body.{IsCallee, IsEarlier, data_names, outputs_of};

use crate::plan::Callee;
use fil_ast::{FilComp, FilPort};
use fil_sig::{add_name, table_name};
use hw_bits::Memory;
use hw_names::Names;
use hw_prims::Prim;
use std::alloc::Global;

/// The components before one: their names, and for each the names of its outputs.
#[derive(Drop)]
pub(crate) struct Earlier {
    names: Names,
    outs: Vec<Names>,
}

impl Earlier {
    /// No components, of those whose names are among these.
    pub(crate) fn new(alloc: Global, names: &Names) -> Earlier
        ensures { IsEarlier [] result }
    {
        Earlier {
            names: names.beside(),
            outs: Vec::new(alloc),
        }
    }

    /// Puts a component last.
    pub(crate) fn add(&mut self, alloc: Global, names: &Names, comp: &FilComp) -> Result<(), Memory>
        requires { ComponentHasNumbers names.now comp.now }
        ensures { (before : Design) → IsEarlier before self.old → KeepsComponent all_rules before (component_tree names.now comp.now)
            → OnOk result (IsEarlier (before ++ component_tree names.now comp.now ∷ []) self.new) }
    {
        let outs = port_names(alloc, names, &comp.outs)?;
        let _new = add_name(&mut self.names, names.text(comp.name))?;
        self.outs.push(outs)?;
        Ok(())
    }

    /// What a name with parameters calls. A name that has a signature calls something.
    pub(crate) fn callee(&self, name: &[u8], params: &[u128]) -> Callee
        requires { (before : Design) × IsEarlier before self.now × IsSome (signature_in before name.now params.now) }
        ensures { IsCallee self.now name.now params.now result }
    {
        match table_name(name) {
            Some(table) => Callee::Primitive(primitive(table.as_bytes(), params)),
            None => match self.names.find(name) {
                Some(number) => Callee::Component(number.0 as usize),
                None => unreachable!(),
            },
        }
    }

    /// How many outputs a callee has.
    pub(crate) fn out_count(&self, callee: Callee) -> usize
        ensures count { result ≡ length (outputs_of self.now callee) }
        ensures small { result < 2 ^ 32 }
    {
        match callee {
            Callee::Primitive(_) => 1,
            Callee::Component(number) => match self.outs.get(number) {
                Some(outs) => outs.len(),
                None => 0,
            },
        }
    }

    /// The number of a callee's output, counted from 0.
    pub(crate) fn out_number(&self, callee: Callee, port: &[u8]) -> Option<usize>
        ensures named { IfSome result (λ number. slice_get (outputs_of self.now callee) number ≡ Some port.now) }
        ensures there { Contains (outputs_of self.now callee) port.now → IsSome result }
    {
        match callee {
            Callee::Primitive(_) => (port == "out".as_bytes()).then_some(0),
            Callee::Component(number) => Some(self.outs.get(number)?.find(port)?.0 as usize),
        }
    }
}

/// The primitive of the table that has this name, with parameters that are right for it.
fn primitive(name: &[u8], params: &[u128]) -> Prim
    requires { IsSome (prim_of name.now params.now) }
    ensures named { prim_of name.now params.now ≡ Some result }
    ensures made { IsMade result }
{
    match Prim::make(name, params) {
        Ok(prim) => prim,
        Err(_) => unreachable!(),
    }
}

/// The names of ports, which differ.
pub(crate) fn port_names(alloc: Global, names: &Names, ports: &[FilPort]) -> Result<Names, Memory>
    requires { All (PortHasNumbers names.now) ports.now }
    ensures { AreDistinct (data_names (map (port_tree names.now) ports.now)) → IfOk result (λ found. found ≡ data_names (map (port_tree names.now) ports.now)) }
{
    let mut found = names.beside();
    for port in ports {
        let _new = add_name(&mut found, names.text(port.name))?;
    }
    Ok(found)
}
