//! Orders, least loops and what is reached in small graphs, told by hand.
ghost use Rattle.std.specs.Prelude.{◌≡◌, length, IsTrue, IfOk};
ghost use Rattle.hw_graph.specs.inside.Components.{AreBelow};
ghost use Rattle.hw_graph.specs.Graph.{AreInRange};

use hw_bits::Memory;
use hw_graph::{
    Entry, Groups, OrderEnd, Reach, gather, least_loop_among, lesser_of, order_or_least_loop,
};
use hw_names::Names;
use std::alloc::Global;
use std::test::Fail;

/// What reads what, by the numbers of ports.
pub(crate) type Reads = &'static [(usize, usize)];

/// Names of ports and what reads what; whether there is an order, and its ports or those of the least loop.
const GRAPHS: [(&[&str], Reads, bool, &[usize]); 5] = [
    // A chain of three.
    (&["a", "b", "c"], &[(0, 1), (1, 2)], true, &[2, 1, 0]),
    // Two reads of one port.
    (&["a", "b"], &[(1, 0), (1, 0)], true, &[0, 1]),
    // A loop of two, and a port that reads it.
    (&["a", "c", "b"], &[(0, 1), (1, 2), (2, 1)], false, &[2, 1]),
    // The least of two loops.
    (
        &["z", "y", "b", "a"],
        &[(0, 1), (1, 0), (2, 3), (3, 2)],
        false,
        &[3, 2],
    ),
    // A port that reads itself.
    (&["a", "b"], &[(1, 0), (1, 1)], false, &[1]),
];

/// The names of ports.
pub(crate) fn names_of(alloc: Global, texts: &[&str]) -> Result<Names, Memory> {
    let mut names = Names::new(alloc);
    for text in texts {
        if names.len() < 100 {
            let _id = names.intern(text.as_bytes())?;
        }
    }
    Ok(names)
}

/// An entry for each read.
pub(crate) fn entries_of(alloc: Global, reads: &[(usize, usize)]) -> Result<Vec<Entry>, Memory> {
    let mut entries = Vec::new(alloc);
    for (key, value) in reads {
        entries.push(Entry {
            key: *key,
            value: *value,
        })?;
    }
    Ok(entries)
}

/// Whether all entries are of ports below a count.
pub(crate) fn are_below(entries: &[Entry], count: usize) -> bool
    ensures { IsTrue result → AreBelow count entries.now }
{
    entries
        .iter()
        .all(|entry| entry.key < count && entry.value < count)
}

/// A graph of so many ports.
pub(crate) fn graph(alloc: Global, reads: &[(usize, usize)], count: usize) -> Result<Groups, Memory>
    ensures all { IfOk result (λ graph. length graph ≡ count) }
    ensures in_range { IfOk result (λ graph. AreInRange graph) }
{
    let entries = entries_of(alloc, reads)?;
    if count > 100 || !are_below(&entries, count) {
        return Err(Memory);
    }
    gather(alloc, &entries, count)
}

/// The ports of a graph's order or of its least loop, and whether it has an order.
fn end_of(
    alloc: Global,
    names: &Names,
    reads: &[(usize, usize)],
) -> Result<(Vec<usize>, bool), Memory> {
    let graph = graph(alloc, reads, names.len())?;
    match order_or_least_loop(alloc, &graph, names) {
        Ok(order) => Ok((order, true)),
        Err(OrderEnd::Loop { ports }) => Ok((ports, false)),
        Err(OrderEnd::Memory) => Err(Memory),
    }
}

/// What is reached from each port, by one search.
pub(crate) fn all_reached(alloc: Global, graph: &Groups) -> Result<Vec<Vec<usize>>, Memory>
    requires { AreInRange graph.now }
{
    let mut reach = Reach::new(alloc, graph)?;
    let mut all = Vec::new(alloc);
    for start in 0..graph.len() {
        all.push(reach.from(alloc, graph, start)?)?;
    }
    Ok(all)
}

#[test]
fn the_order_or_the_least_loop_is_told(rt: HostRuntime) -> Result<(), Fail> {
    for (texts, reads, has_order, told) in GRAPHS {
        let names = names_of(rt.alloc(), texts)?;
        let (ports, ordered) = end_of(rt.alloc(), &names, reads)?;
        assert_eq!(rt; ordered, has_order, "{texts:?}");
        assert_eq!(rt; ports.as_slice(), told, "{texts:?}");
    }
    Ok(())
}

#[test]
fn the_least_loop_of_those_with_names_is_told(rt: HostRuntime) -> Result<(), Fail> {
    // Two loops: one of the nodes 0 and 3, and one of 4 and 5, which have no names; port 1 reads the one, and port 2 the other.
    let reads: [(usize, usize); 6] = [(0, 3), (3, 0), (1, 0), (4, 5), (5, 4), (2, 4)];
    let told: [(&[&str], &[usize]); 2] = [(&["c", "b", "a"], &[0, 3]), (&[], &[])];
    let graph = graph(rt.alloc(), &reads, 6)?;
    for (texts, ports) in told {
        let names = names_of(rt.alloc(), texts)?;
        if names.len() > 6 {
            return Err("too many names".into());
        }
        match least_loop_among(rt.alloc(), &graph, &names)? {
            Some(found) => assert_eq!(rt; found.as_slice(), ports, "{texts:?}"),
            None => assert!(rt; ports.is_empty(), "{texts:?}"),
        }
    }
    Ok(())
}

#[test]
fn the_lesser_name_is_found(rt: HostRuntime) -> Result<(), Fail> {
    let names = names_of(rt.alloc(), &["b", "a"])?;
    assert_eq!(rt; names.len(), 2);
    assert_eq!(rt; lesser_of(&names, None, 0), 0);
    assert_eq!(rt; lesser_of(&names, Some(0), 1), 1);
    assert_eq!(rt; lesser_of(&names, Some(1), 0), 1);
    Ok(())
}

#[test]
fn what_is_reached_is_told(rt: HostRuntime) -> Result<(), Fail> {
    // Port 0 reads a loop of 1 and 2, port 3 reads itself twice, and port 4 reads nothing.
    let reads: [(usize, usize); 5] = [(0, 1), (1, 2), (2, 1), (3, 3), (3, 3)];
    let expected: [&[usize]; 5] = [&[1, 2], &[2, 1], &[1, 2], &[3], &[]];
    let graph = graph(rt.alloc(), &reads, 5)?;
    let all = all_reached(rt.alloc(), &graph)?;
    assert_eq!(rt; all.len(), expected.len());
    for (start, (ports, told)) in all.iter().zip(expected).enumerate() {
        assert_eq!(rt; ports.as_slice(), told, "from port {start}");
    }
    Ok(())
}
