//! Graphs of ports that read one another: an order in which each comes after all that it reads, or the least loop; and what a
//! port reaches.
//!
//! In: for each port, by number, the ports that it reads (`Groups`, which `gather` makes of pairs), and the names of the ports.
//! Out: an order of all ports, or the loop that the user is told.
//!
//!     a reads b, b reads c                       the order  c, b, a
//!     a reads c, c reads b, b reads c            the loop   b, c
//!
//! In a loop each port reads the next, and the last reads the first. The loop that is told starts with the least port, by the
//! bytes of its name, that lies on any; so its first port does not depend on the order of a text's lines. Which loop through that
//! port is told is left open.
//!
//! How it goes: a search depth first gives the order (`search`). Only where it meets a loop are the ports numbered by their
//! strongly connected components (`components`), and the least port on a loop is looked for (`least_loop`). A search keeps its
//! path in a list, so a long chain of ports takes no stack.
//!
//! What the layer above uses: `order_or_least_loop` gives an order (`IsReadOrder`) or a least loop (`IsLeastCycle`), and
//! `read_order` an order or some loop (`IsCycle`), without names; `Reach::from` gives exactly the ports that a port reads,
//! directly or through others (`Reaches`), each once; `gather` gives each key its values in their order (`IsGathered`).
//! `least_loop_among` gives the least loop where only the first nodes are ports with names (`IsLeastCycleAmong`).
#![tactic(auto)]

mod by_name;
mod components;
mod groups;
mod least_loop;
mod order_end;
mod reach;
mod search;
mod unread;
mod walk;

pub use by_name::lesser_of;
pub use groups::{Entry, Groups, gather};
pub use least_loop::{least_loop_among, order_or_least_loop};
pub use order_end::OrderEnd;
pub use reach::Reach;
pub use search::read_order;
