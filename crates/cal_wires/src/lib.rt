//! Which ports of a component of a Calyx design read which within a row, by the component's own text: a graph.
//!
//! In: the place of a component in a design that keeps C1 to C11 (`cal_place`). Out: a `WireGraph` of its ports and of the holes of
//! its groups. A hole stands for a group's `go`: each port that is assigned in a group reads the group's hole, and the hole
//! reads what the group's done lines read, and the component's own `go`. Of
//!
//!     cells { r = std_reg(8); a = std_add(8); }
//!     wires {
//!       group g { r.in = a.out; r.write_en = 1'd1; g[done] = r.done; }
//!       a.left = r.out;
//!     }
//!
//! `r.in` reads `a.out` and the hole of `g`, `r.write_en` reads the hole, the hole reads `r.done` and `go`, `a.left` reads `r.out`; and,
//! by the table of primitives, `a.out` reads `a.left` and `a.right`. Cells that are made of components add nothing here.
//!
//! How it goes: `readings` goes over the assignments, the groups, the invokes of the control, each of which stands for a group, and the
//! cells of primitives; `graph` takes each reading. Ports are known by the numbers of their names (`ports`, `pin_names`), so the length
//! of a name is paid for once. Their full names are made only where they are told or have to be put in order (`full_names`, and
//! short names of the same order by `hw_short`).
//!
//! What the layer above uses is `text_graph`: a reading stands in the graph exactly where the component's own text says it
//! (`HasOwnReadings`), and the first ports are the component's inputs. `Ports` numbers ports and finds them (`find`), and
//! `names_in_order` gives names whose order is that of the full names (`TellNodes`).
#![tactic(auto)]

mod full_names;
mod graph;
mod pin_names;
mod ports;
mod readings;

pub use full_names::name_in;
pub use graph::{Hole, WireGraph};
pub use pin_names::PinName;
pub use ports::{Port, Ports};
pub use readings::{own_port, port_names, text_graph};
