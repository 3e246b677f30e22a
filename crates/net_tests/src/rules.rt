//! Netlists with their weight, their table, and the first rule that they break.
use crate::case::{name_of, net_of, text_of};
use net_core::{NetEnd, net_weight, valid};
use net_text::print_net;
use std::alloc::Global;
use std::test::Fail;

/// Nothing is refused.
const GOOD: &str = "in a 8
in go 1
out q 8
wire w 1
cell r std_reg 8
ext m std_mem_d1 8 4 2
set r.in = !(a < 8'd5) ? a
set r.write_en = (go & go) ? 1'd1
set w = (w | go) ? 1'd0
set q = r.out";

/// The lines of a netlist, its weight, and the rule and the item of a refusal, 0 where there is none.
const NETLISTS: [(&str, u64, u8, u64); 14] = [
    (GOOD, 14, 0, 0),
    // The lines of ports: their names, then their widths.
    ("in a 8\nin a 8", 0, 1, 2),
    ("in a 8\nout q 8\nwire a 0", 0, 1, 3),
    ("in a 0", 0, 3, 1),
    ("in a 1\nout q 129", 0, 3, 2),
    ("wire r 128\ncell r std_reg 8", 1, 0, 0),
    // The lines of cells: their names and their ports', the primitive, then its parameters.
    ("wire r.out 8\ncell r std_reg 8", 1, 1, 2),
    ("cell r std_not 8\ncell r std_mem_d1 8 4 2", 2, 1, 2),
    ("wire r.in 8\ncell r std_reg", 1, 1, 2),
    ("ext r std_gone 8", 1, 2, 1),
    ("cell r std_reg 8 8", 1, 5, 1),
    ("cell r std_reg 129", 1, 5, 1),
    ("ext r std_reg 8", 1, 5, 1),
    ("cell r std_reg 0\nset gone = gone", 2, 5, 1),
];

/// One assignment after `in a 8`, `out q 8` and `cell r std_reg 8`, and the rule that it breaks, 0 where it breaks none.
const ASSIGNMENTS: [(&str, u8); 17] = [
    ("q = gone", 2),
    ("gone = a", 2),
    ("q = (q | gone) ? 8'd256", 2),
    ("q = 8'd256", 3),
    ("q = 7'd5", 3),
    ("q = 0'd0", 3),
    ("q = 129'd5", 3),
    ("q = a ? a", 3),
    ("q = !(a < 7'd5) ? a", 3),
    ("q = 1'd2 ? a", 3),
    ("a = 8'd256", 3),
    ("a = 8'd5", 4),
    ("q = q", 4),
    ("q = (8'd5 < q) ? a", 4),
    ("r.out = a", 4),
    ("q = r.in", 4),
    ("q = (a < 8'd5) ? r.out", 0),
];

/// The ports of the netlist that is good, with their widths.
const PORTS: [(&str, u8); 13] = [
    ("a", 8),
    ("go", 1),
    ("q", 8),
    ("w", 1),
    ("r.in", 8),
    ("r.write_en", 1),
    ("r.out", 8),
    ("r.done", 1),
    ("m.addr0", 2),
    ("m.write_data", 8),
    ("m.write_en", 1),
    ("m.read_data", 8),
    ("m.done", 1),
];

/// The weight of a netlist with these lines, and the rule and the item of a refusal, 0 where there is none.
fn judged(alloc: Global, lines: &str) -> Result<(u64, u8, u64), Fail> {
    let text = text_of(alloc, lines)?;
    let net = net_of(alloc, text.as_str())?;
    let weight = net_weight(&net);
    match valid(alloc, &net) {
        Ok(_table) => Ok((weight, 0, 0)),
        Err(NetEnd::Refused { rule, item }) => Ok((weight, rule, item)),
        Err(NetEnd::Memory) => Err(NetEnd::Memory.into()),
    }
}

#[test]
fn the_first_broken_rule_is_told(rt: HostRuntime) -> Result<(), Fail> {
    for (lines, weight, rule, item) in NETLISTS {
        assert_eq!(rt; judged(rt.alloc(), lines)?, (weight, rule, item), "{lines}");
    }
    Ok(())
}

#[test]
fn the_rule_of_an_assignment_is_told(rt: HostRuntime) -> Result<(), Fail> {
    let alloc = rt.alloc();
    for (set, told) in ASSIGNMENTS {
        let lines = format!(in alloc; "in a 8\nout q 8\ncell r std_reg 8\nset {set}")?;
        let (_, rule, item) = judged(alloc, lines.as_str())?;
        assert_eq!(rt; rule, told, "{set}");
        assert_eq!(rt; item, if told == 0 { 0 } else { 4 }, "{set}");
    }
    Ok(())
}

#[test]
fn the_table_lists_the_ports(rt: HostRuntime) -> Result<(), Fail> {
    let text = text_of(rt.alloc(), GOOD)?;
    let net = net_of(rt.alloc(), text.as_str())?;
    let table = valid(rt.alloc(), &net)?;
    assert_eq!(rt; table.ports.len(), PORTS.len());
    for (i, (name, width)) in PORTS.iter().enumerate() {
        let info = table.ports.get(i).ok_or("port")?;
        let found = name_of(&table, info.name.0 as usize)?;
        assert_eq!(rt; found, *name);
        assert_eq!(rt; info.width, *width, "{name}");
    }
    Ok(())
}

#[test]
fn deep_guards_are_walked_and_dropped(rt: HostRuntime) -> Result<(), Fail> {
    let mut lines = String::from_str(rt.alloc(), "in a 1\nout q 1\nset q = ")?;
    for _ in 0..40_000 {
        lines.push('!')?;
    }
    lines.push_str("a ? a")?;
    assert_eq!(rt; judged(rt.alloc(), lines.as_str())?, (40_002, 0, 0));
    let text = text_of(rt.alloc(), lines.as_str())?;
    let net = net_of(rt.alloc(), text.as_str())?;
    assert!(rt; print_net(rt.alloc(), &net)?.as_slice() == text.as_bytes());
    Ok(())
}
