//! What a statement can invoke: a signature, with its outputs by name.
ghost use Rattle.std.specs.Prelude.{◌≡◌, option_map, IfOk};
ghost use Rattle.hw_names.specs.Name.{AreDistinct};
ghost use Rattle.fil_ast.specs.Scope.{sig_port_named};
ghost use Rattle.fil_sig.specs.Seen.{seen, seen_port};
ghost use Rattle.fil_place.specs.Callees.{HasGoodTimes};
ghost use Rattle.fil_place.specs.Outputs.{output_names};

use fil_sig::{SigPort, TimeSig, add_name};
use hw_bits::Memory;
use hw_names::Names;
use std::alloc::Global;
use std::marker::Model;

/// A signature with small offsets and delays, and the names of its outputs, which differ.
#[derive(Drop)]
pub struct Callee {
    sig: TimeSig,
    outs: Names,
}

impl Model for Callee {
    ghost use Rattle.std.specs.Prelude.{◌≡◌};
    ghost use Rattle.hw_names.specs.Name.{AreDistinct};
    ghost use Rattle.fil_ast.specs.Signature.{Signature};
    ghost use Rattle.fil_sig.specs.Seen.{seen};
    ghost use Rattle.fil_place.specs.Callees.{HasGoodTimes};
    ghost use Rattle.fil_place.specs.Outputs.{output_names};

    ghost Value = { Signature };

    ghost view = { λ callee. seen callee.sig };

    ghost invariant = { λ callee. (callee.outs ≡ output_names (seen callee.sig)) × AreDistinct callee.outs × HasGoodTimes (seen callee.sig) };
}

impl Callee {
    /// The signature, whose outputs can be looked up by name from then on.
    pub fn make(names: &Names, sig: TimeSig) -> Result<Callee, Memory>
        requires outputs { AreDistinct (output_names (seen sig)) }
        requires times { HasGoodTimes (seen sig) }
        ensures { IfOk result (λ callee. callee ≡ seen sig) }
    {
        let mut outs = names.beside();
        for port in &sig.outs {
            let _new = add_name(&mut outs, port.name.bytes())?;
        }
        Ok(Callee { sig, outs })
    }

    /// The signature.
    pub fn sig(&self) -> &TimeSig
        ensures same { seen result.now ≡ self.now }
        ensures times { HasGoodTimes (seen result.now) }
    {
        &self.sig
    }

    /// The output of this name.
    pub fn output(&self, name: &[u8]) -> Option<&SigPort>
        ensures { option_map (λ port. seen_port port.now) result ≡ sig_port_named self.now.outs name.now }
    {
        let id = self.outs.find(name)?;
        Some(&self.sig.outs[id.0 as usize])
    }
}
