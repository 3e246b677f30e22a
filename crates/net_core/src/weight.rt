//! The weight of a netlist.
ghost use Rattle.std.specs.Prelude.{◌≡◌, ◌+◌, sum_by};
ghost use Rattle.net_core.specs.Guard.{guard_tree, guard_option};
ghost use Rattle.net_core.specs.Netlist.{netlist_of};
ghost use Rattle.net_core.specs.Weight.{node_count, option_nodes, weight_of, saturated};

use crate::net::{Guard, Net, NetAssign};

/// The number of nodes of a guard, no more than `2^64-1`: a comparison, a lone source, a negation,
/// and a whole list are one each.
#[cycle(guard_nodes)]
pub fn guard_nodes<P>(guard: &Guard<P>) -> u64
    ensures { result ≡ saturated (node_count (guard_tree (λ p. p) guard.now)) }
{
    let mut nodes: u64 = 0;
    let mut inner = guard;
    loop {
        nodes = nodes.saturating_add(1);
        match inner {
            Guard::Not(negated) => inner = negated,
            Guard::All(guards) | Guard::Any(guards) => return nodes.saturating_add(list_nodes(
                guards,
            )),
            Guard::Read(_) | Guard::Test(..) => return nodes,
        }
    }
}

/// The number of nodes of the guards of a list, no more than `2^64-1`.
#[cycle(guard_nodes)]
fn list_nodes<P>(guards: &[Guard<P>]) -> u64
    ensures { result ≡ saturated (sum_by (λ guard. node_count (guard_tree (λ p. p) guard)) guards.now) }
{
    let mut nodes: u64 = 0;
    for guard in guards {
        nodes = nodes.saturating_add(guard_nodes(guard));
    }
    nodes
}

/// An assignment and the nodes of its guard, no more than `2^64-1`.
fn set_nodes(set: &NetAssign) -> u64
    ensures { result ≡ saturated (1 + option_nodes (guard_option (λ id. id) set.now.guard)) }
{
    match &set.guard {
        Some(guard) => guard_nodes(guard).saturating_add(1),
        None => 1,
    }
}

/// The weight of a netlist, no more than `2^64-1`: its cells, its assignments and the nodes of their guards.
pub fn net_weight(net: &Net) -> u64
    ensures { result ≡ saturated (weight_of (netlist_of net.now)) }
{
    let mut weight = net.cells.len() as u64;
    for set in &net.sets {
        weight = weight.saturating_add(set_nodes(set));
    }
    weight
}
