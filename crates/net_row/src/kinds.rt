//! How each cell keeps its state.
ghost use Rattle.std.specs.Prelude.{◌≡◌, ◌+◌, ◌<◌, ◌^◌, IfOk};
ghost use Rattle.net_row.specs.Kinds.{kinds_of, kept_in, others_in, kept_for, others_for, kind_after};

use hw_bits::Memory;
use hw_prims::Prim;
use net_sim::CellPorts;
use std::alloc::Global;

/// How a cell keeps its state: not at all, in kept values from this number on, or by itself, as the one of the other
/// cells with this number.
#[derive(Clone, Copy, Debug)]
pub enum Kind {
    Stateless,
    Register(usize),
    Delay(usize),
    FastMult(usize),
    Other(usize),
}

/// How the cells keep their states, how many values are kept for them, and how many keep theirs by themselves.
#[derive(Drop)]
pub struct Kinds {
    pub of_cells: Vec<Kind>,
    pub kept: usize,
    pub others: usize,
}

/// How the cells keep their states.
pub fn kinds_of(alloc: Global, cells: &[CellPorts]) -> Result<Kinds, Memory>
    ensures kinds { IfOk result (λ kinds. kinds.of_cells.items ≡ kinds_of cells.now) }
    ensures kept { IfOk result (λ kinds. kinds.kept ≡ kept_in cells.now) }
    ensures others { IfOk result (λ kinds. kinds.others ≡ others_in cells.now) }
{
    let mut kinds = Kinds {
        of_cells: Vec::new(alloc),
        kept: 0,
        others: 0,
    };
    for cell in cells {
        let kind = next_kind(&mut kinds, cell.prim);
        kinds.of_cells.push(kind)?;
    }
    Ok(kinds)
}

/// How a cell of the primitive keeps its state, after those of the cells before.
fn next_kind(kinds: &mut Kinds, prim: Prim) -> Kind
    requires kept { kinds.old.kept + 2 < 2 ^ 64 }
    requires others { kinds.old.others + 1 < 2 ^ 64 }
    ensures kind { result ≡ kind_after kinds.old.kept kinds.old.others prim }
    ensures kept { kinds.new.kept ≡ kinds.old.kept + kept_for prim }
    ensures others { kinds.new.others ≡ kinds.old.others + others_for prim }
    ensures of_cells { kinds.new.of_cells ≡ kinds.old.of_cells }
{
    let first = kinds.kept;
    match prim {
        Prim::StdReg { .. } => {
            kinds.kept += 2;
            Kind::Register(first)
        }
        Prim::FilDelay { .. } => {
            kinds.kept += 1;
            Kind::Delay(first)
        }
        Prim::FilFastMult { .. } => {
            kinds.kept += 2;
            Kind::FastMult(first)
        }
        Prim::StdMemD1 { .. }
        | Prim::StdMemD2 { .. }
        | Prim::StdMultPipe { .. }
        | Prim::FilSeqMult { .. } => {
            let number = kinds.others;
            kinds.others += 1;
            Kind::Other(number)
        }
        _ => Kind::Stateless,
    }
}
