//! A guard that is deeper than brackets may nest.
use crate::case::{push_times, read};
use cal_print::print_calyx;
use std::alloc::Global;
use std::test::Fail;

/// A component whose guard has as many `!` as a text may have: a parenthesis behind each run, so that the next is as long as
/// the limit still allows.
fn most_negations(alloc: Global) -> Result<String, Fail> {
    let mut text = String::from_str(
        alloc,
        "component main(a: 1) -> (q: 1) { cells { } wires { q = ",
    )?;
    for depth in 0..62u64 {
        push_times(&mut text, "!", 62 - depth)?;
        text.push('(')?;
    }
    text.push('a')?;
    push_times(&mut text, ")", 62)?;
    text.push_str(" ? 1'd1; } }")?;
    Ok(text)
}

/// The canonical text of that component, with all of the `!` in one run.
fn in_one_run(alloc: Global, count: u64) -> Result<String, Fail> {
    let front = "component main(a: 1) -> (q: 1) {\n  cells {\n  }\n  wires {\n    q = ";
    let mut text = String::from_str(alloc, front)?;
    push_times(&mut text, "!", count)?;
    text.push_str("a ? 1'd1;\n  }\n}\n")?;
    Ok(text)
}

#[test]
fn guards_are_as_deep_as_texts_may_have_them(rt: HostRuntime) -> Result<(), Fail> {
    let alloc = rt.alloc();
    let text = most_negations(alloc)?;
    let design = read(alloc, text.as_str())?;
    let printed = print_calyx(alloc, &design)?;
    let wanted = in_one_run(alloc, 1953)?;
    assert_eq!(rt; printed.as_slice(), wanted.as_bytes());
    Ok(())
}
