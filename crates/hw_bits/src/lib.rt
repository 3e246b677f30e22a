//! Values of a width of 1 to 128 bits, the error for want of memory, and the greatest width.
//!
//! In: a number and a width. Out: a `Bits`, an unsigned number below `2^width`, and its arithmetic modulo `2^width`. What does
//! not fit is refused by `Bits::new`, and cut to its low bits by `Bits::wrap`.
//!
//!     of 200 and 100, in 8 bits:    add  44     sub  100     mul  32
//!     of 3 and 5, in 8 bits:        add  8      sub  254     mul  15
//!     of 10100110, in 8 bits:       not  01011001           slice(5, 2)  1001, in 4 bits
//!
//! The operations on two values want one width of both, and keep it; `concat`, `slice` and `pad` make another width. A shift by
//! the width or more gives 0.
//!
//! `MAX_WIDTH` is the greatest width, 128. `Memory` says that there was no memory: it is the one answer that no clause ties to a
//! cause.
//!
//! What the layer above uses: each operation gives exactly the number that `specs/Width.antt` defines (`sum_bits`,
//! `difference_bits`, `product_bits`, `bits_between`, ..), at the width that its clause says.
#![tactic(auto)]

mod bits;
mod memory;

pub use bits::{Bits, MAX_WIDTH};
pub use memory::Memory;
