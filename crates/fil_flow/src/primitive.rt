//! The functions of Filament's primitives.
ghost use Rattle.std.specs.Prelude.{◌≡◌, [], ◌∷◌, true};
ghost use Rattle.hw_bits.specs.Values.{values_of, widths_of};
ghost use Rattle.hw_prims.specs.Filament.{primitive_flow};
ghost use Rattle.hw_prims.specs.Table.{IsMade};
ghost use Rattle.fil_flow.specs.Plans.{has_flow, primitive_shape};

use hw_bits::Bits;
use hw_prims::Prim;

/// What a primitive of Filament gives on values of its data inputs, whenever it comes. Takes no memory.
pub(crate) fn primitive_flow(prim: Prim, args: &[Bits]) -> Bits
    requires made { IsMade prim }
    requires known { has_flow prim ≡ true }
    requires args { widths_of args.now ≡ (primitive_shape prim).ins }
    ensures value { result.value ≡ primitive_flow prim (values_of args.now) }
    ensures width { result.width ∷ [] ≡ (primitive_shape prim).outs }
{
    match prim {
        Prim::StdReg { .. } | Prim::FilDelay { .. } => args[0],
        Prim::FilFastMult { .. } | Prim::FilSeqMult { .. } => args[0].mul(args[1]),
        _ => prim.combine(args),
    }
}
