//! Graphs of ports that read one another, at once or through cells that have graphs of their own.
//!
//! In: for each port of a holder the ports that it reads, as entries by number; and its cells, each with the graph of what it is
//! made of, and the nodes in that graph of those of the holder's ports that are the cell's outputs and inputs (`Cell`). Out: one graph
//! for all, in which ports reach ports exactly as they do at once and through cells (`flatten`).
//!
//!     a reads x.o, x.i reads a           the cell x: o reads w, w reads i
//!     by pairs: a reads x.o, x.o reads x.i, x.i reads a    by a copy: a reads x.o, x.o reads o', o' reads w', w' reads i', i' reads x.i, x.i reads a
//!
//! What a cell's outputs reach of its inputs can be as many pairs as there are outputs times inputs, where the graph of what it is made
//! of has some entries a port. So a cell with many pins gets a copy of that graph (`flat`): its nodes are numbered behind the ports, each of
//! the cell's outputs reads its node, and the node of each input reads the input. Of a cell with few pins the inputs that its outputs read
//! are found, and added alone (`pairs`). The cells of one component are gone through together (`parts`). Where their outputs reach little, a
//! search from each finds it (`search`); else 64 of them are gone through by one walk over the component's graph, in which each has a bit of its
//! own in a word of each node (`together`).
//!
//! Where many holders have cells of one component, each would walk over its graph. So for all of these cells together it can be told which of
//! their outputs reach which of their inputs, as soon as that graph is known and before the holders are gone through (`told`); a cell that
//! comes with what is told of it takes no walk (`told_pairs`). And where that makes a component's graph smaller, it is given a graph of its
//! ports alone, once: each output reads the inputs that it reaches (`condense`, `condense_graph` for what holders keep of a component, `PartGraph`).
//!
//! What the layer above uses: `flatten` gives a graph (`IsFlat`) whose first nodes are the ports; between them it reaches exactly what is
//! reached at once and through cells, and a loop in it that starts with a port is one of ports, but for the nodes between. In the graph
//! that `condense` gives, a port reaches another exactly where it reads it through the cell (`IsCondensed`), and after `condense_graph`
//! each output leads to the same inputs (`LeadsAlike`). What `tell` says of outputs and inputs, by their nodes, is so in the graph
//! (`IsTold`).
#![tactic(auto)]

mod cell;
mod condensed;
mod flat;
mod pairs;
mod part_graph;
mod parts;
mod ports_alone;
mod search;
mod together;
mod told;
mod told_pairs;

pub use cell::{Cell, CellPin, Pin};
pub use condensed::condense;
pub use flat::flatten;
pub use part_graph::PartGraph;
pub use ports_alone::condense_graph;
pub use together::TOGETHER;
pub use told::{Told, tell};
