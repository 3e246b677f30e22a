//! Questions about files: whether they are alike, and which lines of one begin so.
use crate::line::Asked;
use anyhow::{Context, Result};
use std::alloc::Global;
use std::fs;

/// What is found where a question is asked.
#[derive(Drop)]
pub enum Found {
    Yes,
    No,
    /// These lines, each with its line feed.
    Lines(String),
}

/// Answers the question.
pub fn answer(rt: &HostRuntime, asked: &Asked<'_>) -> Result<Found> {
    match asked {
        Asked::Same(one, other) => {
            let same = text_of(rt, one)?.as_str() == text_of(rt, other)?.as_str();
            Ok(yes_or_no(same))
        }
        Asked::Begins(whole, head) => {
            let begins = text_of(rt, whole)?.starts_with(text_of(rt, head)?.as_str());
            Ok(yes_or_no(begins))
        }
        Asked::Rows(shown, all) => {
            let shown = text_of(rt, shown)?;
            let all = text_of(rt, all)?;
            Ok(yes_or_no(have_rows(rows_of(all.as_str()), shown.as_str())))
        }
        Asked::Lines(name, head) => {
            let text = text_of(rt, name)?;
            Ok(Found::Lines(lines_with(rt.alloc(), text.as_str(), head)?))
        }
    }
}

/// The text of the file.
fn text_of(rt: &HostRuntime, name: &str) -> Result<String> {
    fs::read_to_string(rt, name).context(name)
}

fn yes_or_no(yes: bool) -> Found {
    if yes { Found::Yes } else { Found::No }
}

/// The lines that begin so.
fn lines_with(alloc: Global, text: &str, head: &str) -> Result<String> {
    let mut lines = String::new(alloc);
    for line in text.lines() {
        if line.starts_with(head) {
            lines.push_str(line)?;
            lines.push_str("\n")?;
        }
    }
    Ok(lines)
}

/// The rows of a trace, which stand after the netlist's text and an empty line; of another report all lines.
fn rows_of(report: &str) -> &str {
    match report.split_once("\nend\n\n") {
        Some((_, rows)) => rows,
        None => report,
    }
}

/// There are as many rows as are shown, and each has what is shown of it.
fn have_rows(all: &str, shown: &str) -> bool {
    all.lines().count() == shown.lines().count()
        && all
            .lines()
            .zip(shown.lines())
            .all(|(row, part)| has_words(row, part))
}

/// Each word of the part stands in the row, but for dashes, and for what acts there, behind a bar.
fn has_words(row: &str, part: &str) -> bool {
    let outputs = match part.split_once(" |") {
        Some((outputs, _)) => outputs,
        None => part,
    };
    outputs.split(" ").all(|word| word.ends_with("=-") || row.split(" ").any(|it| it == word))
}
