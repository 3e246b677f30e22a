//! What a line of a list says.
use anyhow::{Result, bail};
use std::alloc::Global;

/// A line of a list.
#[derive(Drop)]
pub enum Line<'a> {
    /// Nothing: it parts cases from one another.
    Blank,
    /// A title or a note, which the transcript repeats.
    Title(&'a str),
    /// From here on the text of a file of this name.
    File(&'a str),
    /// A part of a file's text.
    Text(Piece<'a>),
    /// A call of the program.
    Call(Call<'a>),
    /// A question about files.
    Question(Question<'a>),
}

/// A part of a file's text, so many times.
#[derive(Clone, Copy)]
pub struct Piece<'a> {
    pub times: u64,
    pub part: Part<'a>,
}

/// A part of a file's text.
#[derive(Clone, Copy)]
pub enum Part<'a> {
    /// A line as it stands. Where it is repeated, `{n}` in it is 0, 1, 2, .. and `{n+1}` is 1, 2, 3, ..
    Line(&'a str),
    /// Text without a line feed after it, in which `\n`, `\r`, `\t` and `\\` stand for a byte.
    Quoted(&'a str),
    /// The bytes of another file, or so many of them.
    Copy { name: &'a str, bytes: u64 },
}

/// A call of the program.
#[derive(Drop)]
pub struct Call<'a> {
    /// The words, as they stand in the list.
    pub text: &'a str,
    pub words: Vec<&'a str>,
    /// The name of the file that the report becomes.
    pub keep: Option<&'a str>,
}

/// A question about files.
#[derive(Drop)]
pub struct Question<'a> {
    /// The question, as it stands in the list.
    pub text: &'a str,
    pub asked: Asked<'a>,
}

/// What is asked of files.
#[derive(Clone, Copy)]
pub enum Asked<'a> {
    /// Whether two have the same bytes.
    Same(&'a str, &'a str),
    /// Whether the first begins with the second.
    Begins(&'a str, &'a str),
    /// Whether each word of the first's rows stands in the second's row of the same number.
    Rows(&'a str, &'a str),
    /// Which lines of the file begin so.
    Lines(&'a str, &'a str),
}

impl<'a> Line<'a> {
    /// What the line says. An error where it says nothing that can stand in a list.
    pub fn read(alloc: Global, line: &'a str) -> Result<Line<'a>> {
        if line.is_empty() {
            Ok(Line::Blank)
        } else if line.starts_with("#") {
            Ok(Line::Title(line))
        } else if let Some(name) = line.strip_prefix("file ") {
            Ok(Line::File(name))
        } else if let Some(text) = line.strip_prefix("$") {
            Ok(Line::Call(Call::read(alloc, text)?))
        } else if let Some(text) = line.strip_prefix("? ") {
            Ok(Line::Question(Question::read(alloc, text)?))
        } else {
            Ok(Line::Text(Piece::read(line)?))
        }
    }
}

impl<'a> Piece<'a> {
    /// A part of a text, behind how often it stands there: `16 * | cell m{n} std_reg 8`.
    fn read(line: &'a str) -> Result<Piece<'a>> {
        if let Some((count, rest)) = line.split_once(" * ") {
            if let Ok(times) = count.parse::<u64>() {
                let part = Part::read(rest)?;
                return Ok(Piece { times, part });
            }
        }
        let part = Part::read(line)?;
        Ok(Piece { times: 1, part })
    }
}

impl<'a> Part<'a> {
    fn read(line: &'a str) -> Result<Part<'a>> {
        if line == "|" {
            Ok(Part::Line(""))
        } else if let Some(text) = line.strip_prefix("| ") {
            Ok(Part::Line(text))
        } else if let Some(text) = quoted(line) {
            Ok(Part::Quoted(text))
        } else if let Some(name) = line.strip_prefix("< ") {
            Part::copy(name)
        } else {
            bail!("no line of a list begins so")
        }
    }

    /// `< counter.net 17` are the first 17 bytes of that file, `< counter.net` are all.
    fn copy(text: &'a str) -> Result<Part<'a>> {
        let Some((name, count)) = text.split_once(" ") else {
            let bytes = u64::MAX;
            return Ok(Part::Copy { name: text, bytes });
        };
        match count.parse::<u64>() {
            Ok(bytes) => Ok(Part::Copy { name, bytes }),
            Err(_) => bail!("no number of bytes"),
        }
    }
}

/// The text between the first quotation mark and the last one of `+ "text"`.
fn quoted(line: &str) -> Option<&str> {
    line.strip_prefix("+ \"")?.strip_suffix("\"")
}

impl<'a> Call<'a> {
    /// The words of `$ rows "a b.net" 5 > rows.txt`, where one in quotation marks may be empty or have spaces, and the file that
    /// its report becomes.
    fn read(alloc: Global, text: &'a str) -> Result<Call<'a>> {
        let (spelled, keep) = match text.split_once(" > ") {
            Some((words, name)) => (words, Some(name)),
            None => (text, None),
        };
        let mut words = Vec::new(alloc);
        for (place, part) in spelled.split("\"").enumerate() {
            if place % 2 == 1 {
                words.push(part)?;
            } else {
                words.extend(part.split_whitespace())?;
            }
        }
        Ok(Call { text, words, keep })
    }
}

impl<'a> Question<'a> {
    fn read(alloc: Global, text: &'a str) -> Result<Question<'a>> {
        let words: Vec<&str> = text.splitn(3, " ").collect(alloc)?;
        let asked = match words.as_slice() {
            ["same", one, other] => Asked::Same(one, other),
            ["begins", whole, head] => Asked::Begins(whole, head),
            ["rows", shown, all] => Asked::Rows(shown, all),
            ["lines", name, head] => Asked::Lines(name, head),
            _ => bail!("no such question"),
        };
        Ok(Question { text, asked })
    }
}
