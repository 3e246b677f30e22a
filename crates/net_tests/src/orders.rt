//! Orders and least loops of netlists, told by hand.
use crate::case::{name_of, net_of, text_of};
use net_core::{Table, valid};
use net_sim::{OrderEnd, order};
use std::alloc::Global;
use std::fmt::Write;
use std::test::Fail;

/// The lines of a netlist, and the only order of its ports, or its least loop.
const ORDERS: [(&str, &str); 7] = [
    ("in go 1", "order go"),
    // Sources and guards of all forms are read.
    (
        "in go 1\nwire e 1\nwire d 1\nwire c 1\nwire b 1\nwire a 1\nset e = (d == c) ? go\nset d = !c ? go\nset c = b ? a\nset b = a\nset a = go",
        "order go a b c d e",
    ),
    // Of two loops the one that starts at the lesser name.
    (
        "in go 1\nwire z 1\nwire y 1\nwire d 1\nwire c 1\nset z = y\nset y = z\nset d = c\nset c = d",
        "loop c d",
    ),
    // `a` reads a loop and `b` is read by it, and neither lies on it.
    (
        "in go 1\nwire a 1\nwire b 1\nwire k 1\nwire j 1\nwire i 1\nset a = i\nset i = b ? k\nset k = j\nset j = i",
        "loop i k j",
    ),
    // A loop through guards.
    (
        "in go 1\nwire c 1\nwire b 1\nwire a 1\nset a = !b ? go\nset b = (go == c) ? go\nset c = a ? go",
        "loop a b c",
    ),
    // A port that reads itself.
    (
        "in go 1\nwire b 1\nwire a 1\nset b = a\nset b = b ? a",
        "loop b",
    ),
    // A loop through the address of a memory.
    (
        "in go 1\nwire w 1\ncell m std_mem_d1 1 2 1\nset m.addr0 = w\nset w = m.read_data",
        "loop m.addr0 w m.read_data",
    ),
];

/// A word and the names of these ports, with a space before each.
fn listed(alloc: Global, word: &str, table: &Table, ports: &[usize]) -> Result<String, Fail> {
    let mut text = String::from_str(alloc, word)?;
    for port in ports {
        text.push(' ')?;
        text.push_str(name_of(table, *port)?)?;
    }
    Ok(text)
}

/// The order of the ports of a netlist with these lines, or its least loop.
fn order_of(alloc: Global, lines: &str) -> Result<String, Fail> {
    let text = text_of(alloc, lines)?;
    let net = net_of(alloc, text.as_str())?;
    let table = valid(alloc, &net)?;
    match order(alloc, &net, &table) {
        Ok(order) => listed(alloc, "order", &table, order.ports()),
        Err(OrderEnd::Loop { ports }) => listed(alloc, "loop", &table, &ports),
        Err(OrderEnd::Memory) => Err(OrderEnd::Memory.into()),
    }
}

/// The lines of an input `go` and 2000 wires `w0`, `w1` and so on, each of which reads the next, and the last one this port.
fn chain(alloc: Global, last: &str) -> Result<String, Fail> {
    let mut wires = String::from_str(alloc, "in go 1\nwire w0 1")?;
    let mut sets = String::new(alloc);
    for i in 1..2000u32 {
        let before = i - 1;
        write!(wires, "\nwire w{i} 1")?;
        write!(sets, "\nset w{before} = w{i}")?;
    }
    write!(sets, "\nset w1999 = {last}")?;
    wires.push_str(sets.as_str())?;
    Ok(wires)
}

#[test]
fn the_order_or_the_least_loop_is_told(rt: HostRuntime) -> Result<(), Fail> {
    for (lines, told) in ORDERS {
        assert_eq!(rt; order_of(rt.alloc(), lines)?.as_str(), told);
    }
    Ok(())
}

#[test]
fn a_deep_chain_is_ordered(rt: HostRuntime) -> Result<(), Fail> {
    let lines = chain(rt.alloc(), "go")?;
    let told = order_of(rt.alloc(), lines.as_str())?;
    assert!(rt; told.starts_with("order go w1999 w1998 "));
    assert!(rt; told.ends_with(" w2 w1 w0"));
    assert_eq!(rt; told.split(' ').count(), 2002);
    Ok(())
}

#[test]
fn a_long_ring_is_a_loop(rt: HostRuntime) -> Result<(), Fail> {
    let lines = chain(rt.alloc(), "w0")?;
    let told = order_of(rt.alloc(), lines.as_str())?;
    assert!(rt; told.starts_with("loop w0 w1 w2 "));
    assert!(rt; told.ends_with(" w1998 w1999"));
    assert_eq!(rt; told.split(' ').count(), 2001);
    Ok(())
}
