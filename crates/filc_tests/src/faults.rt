//! Files and sinks that fail in mid-stream: each call in its turn.
use crate::calls::{MOST, Said, ask_faulty};
use crate::texts::{
    CLASH, COUNTER, DOUBLE, FOUR, GATED, GATED_STIMULUS, LOOPED, MEETING, REPEATS, SHOWN, SUM,
    SUM_STIMULUS,
};
use crate::words::{
    CHECK, CHECK_CALYX, FLOW, NET, ROWS, SCHED, SIM, SIM_FIL, TIMELINE, TRACE, TRACE_FIL,
};
use filc_core::Ended;
use std::process::Abort;
use std::test::Fail;

/// Words, and a text and a stimulus with which they have a report, a line, or both.
const ASKED: &[(&[&str], &str, &str)] = &[
    (CHECK, COUNTER, ""),
    (ROWS, COUNTER, ""),
    (ROWS, SHOWN, ""),
    (ROWS, CLASH, ""),
    (CHECK, "net n\nin a 0\nend\n", ""),
    (CHECK, "net\n", ""),
    (CHECK_CALYX, DOUBLE, ""),
    (CHECK_CALYX, LOOPED, ""),
    (CHECK_CALYX, REPEATS, ""),
    (&[], COUNTER, ""),
    (
        SIM,
        SHOWN,
        r#"{"version":1,"cycles":3,"inputs":[],"memories":{"m":[1]}}"#,
    ),
    (SIM, GATED, GATED_STIMULUS),
    (TRACE, GATED, GATED_STIMULUS),
    (FLOW, SUM, SUM_STIMULUS),
    (TIMELINE, SUM, SUM_STIMULUS),
    (NET, SUM, ""),
    (SIM_FIL, SUM, SUM_STIMULUS),
    (TRACE_FIL, SUM, SUM_STIMULUS),
    (SCHED, MEETING, FOUR),
    (FLOW, SUM, "{"),
    (
        TRACE,
        GATED,
        r#"{"version":1,"cycles":1000001,"inputs":[]}"#,
    ),
];

/// Both are what was said without a fault.
fn try_same(rt: &impl Abort, said: &Said, told: &Said) {
    assert_eq!(rt; said.ended, told.ended);
    assert_eq!(rt; said.report.as_str(), told.report.as_str());
    assert_eq!(rt; said.line.as_str(), told.line.as_str());
}

/// Words that take a design alone, its text, and what is said where its file can't be read.
const ALONE: &[(&[&str], &str, &str)] = &[
    (CHECK, SHOWN, "read fault: f.net\n"),
    (ROWS, SHOWN, "read fault: f.net\n"),
    (NET, SUM, "read fault: f.fil\n"),
    (CHECK_CALYX, REPEATS, "read fault: f.futil\n"),
];

// A small file is read in a piece, and a second one finds its end.
#[test]
fn each_piece_may_fail(rt: HostRuntime) -> Result<(), Fail> {
    let alloc = rt.alloc();
    for (words, text, line) in ALONE {
        let told = ask_faulty(alloc, words, text, "", [&[], &[], &[]])?;
        for call in 1..4 {
            let said = ask_faulty(alloc, words, text, "", [&[call], &[], &[]])?;
            if call > 2 {
                try_same(&rt, &said, &told);
                continue;
            }
            assert_eq!(rt; said.ended, Ended::ReadFault);
            assert_eq!(rt; said.report.as_str(), "");
            assert_eq!(rt; said.line.as_str(), *line);
        }
    }
    Ok(())
}

/// Words that take a stimulus, and the file whose reads fail by their numbers.
const READ: &[(&[&str], &str, &str, &str)] = &[
    (SIM, GATED, GATED_STIMULUS, "read fault: f.net\n"),
    (TRACE, GATED, GATED_STIMULUS, "read fault: f.net\n"),
    (FLOW, SUM, SUM_STIMULUS, "read fault: f.fil\n"),
    (TIMELINE, SUM, SUM_STIMULUS, "read fault: f.fil\n"),
    (SIM_FIL, SUM, SUM_STIMULUS, "read fault: f.fil\n"),
    (TRACE_FIL, SUM, SUM_STIMULUS, "read fault: f.fil\n"),
    (SCHED, MEETING, FOUR, "read fault: f.futil\n"),
];

// The design's two pieces come first, then the stimulus's.
#[test]
fn each_piece_of_two_files_may_fail(rt: HostRuntime) -> Result<(), Fail> {
    let alloc = rt.alloc();
    for (words, text, stimulus, line) in READ {
        let told = ask_faulty(alloc, words, text, stimulus, [&[], &[], &[]])?;
        for call in 1..7 {
            let said = ask_faulty(alloc, words, text, stimulus, [&[call], &[], &[]])?;
            if call > 4 {
                try_same(&rt, &said, &told);
                continue;
            }
            assert_eq!(rt; said.ended, Ended::ReadFault);
            assert_eq!(rt; said.report.as_str(), "");
            assert_eq!(rt;
                said.line.as_str(),
                if call > 2 {
                    "read fault: s.json\n"
                } else {
                    line
                }
            );
        }
    }
    Ok(())
}

// What is there is the beginning of the report, and no line is due.
#[test]
fn each_put_of_a_report_may_fail(rt: HostRuntime) -> Result<(), Fail> {
    let alloc = rt.alloc();
    for (words, text, stimulus) in ASKED {
        let told = ask_faulty(alloc, words, text, stimulus, [&[], &[], &[]])?;
        for call in 1..35 {
            let said = ask_faulty(alloc, words, text, stimulus, [&[], &[call], &[]])?;
            if call > told.report.len().div_ceil(MOST) as u64 {
                try_same(&rt, &said, &told);
                continue;
            }
            assert_eq!(rt; said.ended, Ended::WriteFault);
            assert!(rt; told.report.as_str().starts_with(said.report.as_str()));
            assert!(rt; said.report.len() < told.report.len());
            assert_eq!(rt; said.line.as_str(), "");
        }
    }
    Ok(())
}

// The report is whole by then.
#[test]
fn each_put_of_a_line_may_fail(rt: HostRuntime) -> Result<(), Fail> {
    let alloc = rt.alloc();
    for (words, text, stimulus) in ASKED {
        let told = ask_faulty(alloc, words, text, stimulus, [&[], &[], &[]])?;
        for call in 1..35 {
            let said = ask_faulty(alloc, words, text, stimulus, [&[], &[], &[call]])?;
            if said.ended == told.ended {
                try_same(&rt, &said, &told);
                continue;
            }
            assert_eq!(rt; said.ended, Ended::WriteFault);
            assert_eq!(rt; said.report.as_str(), told.report.as_str());
            assert!(rt; told.line.as_str().starts_with(said.line.as_str()));
            assert!(rt; said.line.len() < told.line.len());
            assert_eq!(rt; said.line.is_empty(), call == 1);
        }
    }
    Ok(())
}
