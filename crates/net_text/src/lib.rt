//! The text of netlists, both ways.
//!
//! In: bytes, or the tree of a netlist. Out: the netlist that the bytes spell (`read_net`), or the byte at which they are
//! refused; the text of a netlist (`print_net`).
//!
//!     net counter
//!     out q 8
//!     cell r std_reg 8
//!     set r.in = 8'd5
//!     set r.write_en = 1'd1
//!     set q = r.out
//!     end
//!
//! One line feed ends each line, one space parts words, and nothing else stands there. The lines come in this order: `net`, `in`,
//! `out`, `wire`, then `cell` and `ext`, then `set`, then `end`.
//!
//! A text that spells no netlist is refused at the first byte of the first line with which no netlist's text can begin any more:
//! a line `cell a std_add 8` after a `set` at its `c`, a text that only lacks `end` at its length. Whether names are there and
//! widths agree is not asked here; that is `net_core`'s. Each line is read by itself (`lines`), guards by their brackets
//! (`guards`).
//!
//! What the layer above uses: `read_net` gives the netlist that the text spells (`Spells`), else a right refusal (`Refuses`);
//! `print_net` gives the text `net_text`; and a text spells at most one netlist (`one_netlist`). So each netlist has one
//! spelling, and printing what was read gives the same bytes.
#![tactic(auto)]

mod guards;
mod line_end;
mod lines;
mod net_text_end;
mod netlists;
mod print;
mod read;
mod words;

pub use net_text_end::NetTextEnd;
pub use print::print_net;
pub use read::{one_netlist, read_net};
