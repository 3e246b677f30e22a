//! Short names that stand in the order of full names.
//!
//! In: full names by the numbers of texts, each one text, or two with a dot between them (`FullName`). Out: for each a name of twelve
//! bytes, all of them distinct, whose order tells the order of the full names; so an order of ports can be asked for where their
//! full names, of which a component may have many for one long name of a cell, have no room.
//!
//!     a.in  a.out  a$.in  go     has the pieces  a$.  a.  go  in  out     and is put in order as  a$.in  a.in  a.out  go
//!
//! What the layer above uses: `short_names` gives names that tell the order (`TellOrder`), unless a text has a dot.
#![tactic(auto)]

mod full_name;
mod pieces;
mod ranks;

pub use full_name::FullName;
pub use pieces::short_names;
