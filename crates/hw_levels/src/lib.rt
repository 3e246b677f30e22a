//! Levels of ports: numbers that show that no wires go in a loop, through cells of components too.
//!
//! In: for each port of a component the ports that it reads within a row, as entries by number; and the ports of its cells that
//! are made of components, each with its level in that component. Out: a level for each port, above those of all that it
//! reads, if such levels are found (`levels_of`).
//!
//!     o reads w, w reads i                       the levels  i 0, w 1, o 2
//!
//! What the outputs of a component reach of its inputs can be as many pairs as there are outputs times inputs. A holder of a cell
//! of it needs less: that each output of the cell is above those inputs whose level in the component is lower than its own. Those
//! are all that it can reach there, and perhaps others. So what is known of a component is a number for each port, and a
//! cell costs what the text says of it, whatever its outputs reach.
//!
//! How they are found: the graph gets some nodes more, for each cell a chain of its inputs by their levels in its component, which
//! each output reads from the last input below it on (`link`). That the levels that come out of it keep those of the cells is
//! not proved but looked at (`keeps_levels`). Where none are found, nothing is known: wires go in a loop, or a component has two
//! ports in an order that its holder needs the other way round.
//!
//! What the layer above uses: `levels_of` gives levels (`AreLevels`) or none.
#![tactic(auto)]

mod cells;
mod levels;
mod link;

pub use cells::CellPort;
pub use levels::levels_of;
