//! What a circuit keeps of a Filament design: the promise that lowering has to keep, in words of the design and of runs alone.
//!
//! In and out: nothing that runs. Of the component
//!
//!     comp Next<G: 1>(@interface[G] go: 1, @[G, G+1] a: 8) -> (@[G+1, G+2] o: 8) {
//!       s := new Delay[8]<G>(a);
//!       o = s.out;
//!     }
//!
//! and a transaction that starts in row 3 with 7 at `a`, a run carries it (`CarriesList`) in which `go` is 1 in row 3 and in no
//! other, `a` is 7 there, and `o` is 7 in row 4; there is no Conflict, and the instance `s` shows the same at its own ports. What
//! the ports hold in other rows is left open.
//!
//! What the layers above use: `CarriesLists`, that each run whose inputs carry a legal list of transactions carries it everywhere;
//! and `Refines`, that a netlist does so which has the top's ports, and its instances as cells.
#![tactic(auto)]
