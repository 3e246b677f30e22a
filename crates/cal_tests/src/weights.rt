//! What designs weigh, and how many words their memories have.
use crate::case::read;
use crate::designs::{CUBE, DOT, DOUBLE, TOTAL, TWICE};
use cal_check::{cal_weight, cal_words, check_calyx};
use std::alloc::Global;
use std::fmt::Write;
use std::test::Fail;

/// A text, the weight of its design, and the words of its memories.
type Weighed = (&'static str, u64, u64);

const WEIGHED: &[Weighed] = &[
    ("component main() -> () { cells { } wires { } }", 1, 0),
    // Ports, the implied ones too, and written ones in their place.
    (
        "component main(a: 8, b: 8) -> (q: 8) { cells { } wires { } }",
        4,
        0,
    ),
    (
        "component main() -> () { cells { } wires { } control { } }",
        3,
        0,
    ),
    (
        "component main(go: 1) -> (done: 1) { cells { } wires { } control { } }",
        3,
        0,
    ),
    (
        "component main(clk: 1, reset: 1, a: 1) -> (clk: 1) { cells { } wires { } }",
        3,
        0,
    ),
    // Cells, and the words of memories, external or not.
    (
        "component main() -> () { cells { r = std_reg(8); a = std_add(8); } wires { } }",
        3,
        0,
    ),
    (
        "component main() -> () { cells { @external m = std_mem_d1(8, 4, 2); n = comb_mem_d2(1, 2, 3, 1, 2); r = std_reg(8); } wires { } }",
        4,
        10,
    ),
    (
        "component main() -> () { cells { m = std_mem_d1(8, 65536, 16); n = std_mem_d2(1, 256, 256, 8, 8); } wires { } }",
        3,
        131_072,
    ),
    // Lines, and the nodes of guards: a comparison, a source alone, a `!` and a list are one each.
    (
        "component main(a: 1) -> (q: 1) { cells { } wires { q = a; } }",
        4,
        0,
    ),
    (
        "component main(a: 1) -> (q: 1) { cells { } wires { q = a ? a; } }",
        5,
        0,
    ),
    (
        "component main(a: 1) -> (q: 1) { cells { } wires { q = a == a ? a; } }",
        5,
        0,
    ),
    (
        "component main(a: 1) -> (q: 1) { cells { } wires { q = !!a ? a; } }",
        7,
        0,
    ),
    (
        "component main(a: 1) -> (q: 1) { cells { } wires { q = a & a & a ? a; } }",
        8,
        0,
    ),
    (
        "component main(a: 1) -> (q: 1) { cells { } wires { q = (((a))) ? a; } }",
        5,
        0,
    ),
    (
        "component main(a: 1) -> (q: 1) { cells { } wires { q = a == a & !a | a ? a; } }",
        10,
        0,
    ),
    (
        "component main(a: 1) -> (q: 1) { cells { } wires { q = (a | a) | a ? a; } }",
        9,
        0,
    ),
    // A group itself weighs nothing.
    (
        "component main() -> () { cells { } wires { comb group c { } } }",
        1,
        0,
    ),
    (
        "component main(a: 1) -> (q: 1) { cells { } wires { group g { q = a; g[done] = !a ? 1'd1; } } }",
        7,
        0,
    ),
    // Statements: a list of several is one, an empty branch or body none.
    (
        "component main(a: 1) -> () { cells { } wires { } control { if a { } } }",
        5,
        0,
    ),
    (
        "component main(a: 1) -> () { cells { } wires { } control { if a { } else { seq { } } } }",
        5,
        0,
    ),
    (
        "component main(a: 1) -> () { cells { } wires { } control { if a { par { } } else { while a { } } } }",
        7,
        0,
    ),
    (
        "component main(a: 1) -> () { cells { } wires { } control { seq { } seq { } } }",
        7,
        0,
    ),
    // Bindings of invokes.
    (
        "component main() -> () { cells { r = std_reg(1); } wires { } control { invoke r()(); } }",
        5,
        0,
    ),
    (
        "component main(a: 1) -> (q: 1) { cells { r = std_reg(1); } wires { } control { invoke r(in = a)(out = q, out = q); } }",
        10,
        0,
    ),
    // Each cell adds what its component weighs; components that are not in the top one add nothing.
    (
        "component a(x: 8) -> () { cells { m = std_mem_d1(8, 5, 3); } wires { } } component main() -> () { cells { p = a(); q = a(); m = std_mem_d1(8, 3, 2); } wires { } }
component b() -> () { cells { m = std_mem_d1(8, 100, 7); } wires { } }",
        10,
        13,
    ),
    // The top component is the one named `main`, and else the last.
    (
        "component a(x: 8) -> () { cells { } wires { } } component b() -> () { cells { } wires { } }",
        1,
        0,
    ),
    (
        "component a() -> () { cells { } wires { } } component b(x: 8) -> () { cells { } wires { } }",
        2,
        0,
    ),
    (
        "component main(x: 8) -> () { cells { } wires { } } component b() -> () { cells { } wires { } }",
        2,
        0,
    ),
    (DOUBLE, 18, 0),
    (TOTAL, 28, 4),
    (CUBE, 30, 0),
    (TWICE, 34, 4),
    (DOT, 46, 17),
];

/// A component of these cells, and so many more, each of which has two cells of the one before.
fn doubling(alloc: Global, cells: &str, comps: u64) -> Result<String, Fail> {
    let mut text = String::new(alloc);
    write!(
        text,
        "component k0() -> () {{ cells {{ {cells} }} wires {{ }} }}\n"
    )?;
    for before in 0..comps {
        let comp = before.saturating_add(1);
        write!(
            text,
            "component k{comp}() -> () {{ cells {{ a = k{before}(); b = k{before}(); }} wires {{ }} }}\n"
        )?;
    }
    Ok(text)
}

/// The weight and the words of a text's design.
fn weigh(alloc: Global, text: &str) -> Result<(u64, u64), Fail> {
    let design = read(alloc, text)?;
    let ok = check_calyx(alloc, &design)?;
    Ok((cal_weight(alloc, &ok)?, cal_words(alloc, &ok)?))
}

#[test]
fn designs_are_weighed(rt: HostRuntime) -> Result<(), Fail> {
    for (text, weight, words) in WEIGHED {
        let weighed = weigh(rt.alloc(), text)?;
        assert_eq!(rt; weighed, (*weight, *words), "of {text}");
    }
    Ok(())
}

/// How often the weight doubles, and what it then is: 3 for each further component, and twice what the one before weighs.
const DOUBLED: &[(u64, u64)] = &[
    (0, 1),
    (1, 5),
    (17, 524_285),
    (18, 1_048_573),
    (61, 9_223_372_036_854_775_805),
    (62, 18_446_744_073_709_551_613),
    (63, u64::MAX),
    (64, u64::MAX),
    (1000, u64::MAX),
];

/// How often 65,536 words double, and how many they then are.
const DOUBLED_WORDS: &[(u64, u64)] = &[
    (0, 65_536),
    (1, 131_072),
    (47, 9_223_372_036_854_775_808),
    (48, u64::MAX),
    (64, u64::MAX),
];

#[test]
fn weights_double(rt: HostRuntime) -> Result<(), Fail> {
    let alloc = rt.alloc();
    for (comps, weight) in DOUBLED {
        let text = doubling(alloc, "", *comps)?;
        assert_eq!(rt; weigh(alloc, text.as_str())?, (*weight, 0), "after {comps}");
    }
    for (comps, words) in DOUBLED_WORDS {
        let text = doubling(alloc, "m = std_mem_d1(1, 65536, 16);", *comps)?;
        let (_, found) = weigh(alloc, text.as_str())?;
        assert_eq!(rt; found, *words, "after {comps}");
    }
    Ok(())
}
