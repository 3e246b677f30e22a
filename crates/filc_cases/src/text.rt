//! The text of a file, as the lines of a list say it.
ghost use Rattle.std.specs.Prelude.{◌≡◌, [], ◌∷◌, ◌++◌, OnOk};

use crate::line::{Part, Piece};
use anyhow::{Context, Result};
use std::alloc::{AllocError, Global};
use std::fs;

/// A file whose text is being read.
#[derive(Drop)]
pub struct Draft<'a> {
    name: &'a str,
    bytes: Vec<u8>,
}

impl<'a> Draft<'a> {
    /// A file of this name without a byte.
    pub fn new(alloc: Global, name: &'a str) -> Draft<'a>
        ensures { result.bytes.items ≡ [] }
    {
        Draft {
            name,
            bytes: Vec::new(alloc),
        }
    }

    /// Puts the piece at the end of the text.
    pub fn push(&mut self, rt: &HostRuntime, piece: &Piece<'_>) -> Result<()> {
        match piece.part {
            Part::Line(text) if piece.times == 1 => Ok(push_line(&mut self.bytes, text)?),
            Part::Line(text) => Ok(push_numbered(rt.alloc(), &mut self.bytes, text, piece.times)?),
            Part::Quoted(text) => {
                let bytes = unquoted(rt.alloc(), text)?;
                Ok(push_times(&mut self.bytes, &bytes, piece.times)?)
            }
            Part::Copy { name, bytes } => {
                let whole = fs::read(rt, name).context(name)?;
                let first = &whole[..whole.len().min(bytes as usize)];
                Ok(push_times(&mut self.bytes, first, piece.times)?)
            }
        }
    }

    /// Writes the file.
    pub fn write(&self, rt: &HostRuntime) -> Result<()> {
        fs::write(rt, self.name, self.bytes.as_slice()).context(self.name)
    }
}

/// Puts the bytes at the end, so many times.
fn push_times(bytes: &mut Vec<u8>, part: &[u8], times: u64) -> Result<(), AllocError> {
    for _ in 0..times {
        bytes.extend_from_slice(part)?;
    }
    Ok(())
}

/// Puts the line and a line feed at the end.
fn push_line(bytes: &mut Vec<u8>, text: &str) -> Result<(), AllocError>
    ensures { OnOk result (bytes.new.items ≡ bytes.old.items ++ (text.now ++ 10 ∷ [])) }
{
    bytes.extend_from_slice(text.as_bytes())?;
    bytes.push(b'\n')?;
    Ok(())
}

/// Puts the line and a line feed at the end, so many times, with its number in place of `{n}`.
fn push_numbered(
    alloc: Global,
    bytes: &mut Vec<u8>,
    text: &str,
    times: u64,
) -> Result<(), AllocError> {
    for number in 0..times {
        let line = numbered(alloc, text, number)?;
        push_line(bytes, line.as_str())?;
    }
    Ok(())
}

/// The line with this number in place of `{n}`, and the next one in place of `{n+1}`.
fn numbered(alloc: Global, text: &str, number: u64) -> Result<String, AllocError> {
    let mut line = String::new(alloc);
    for (place, part) in text.split("{n").enumerate() {
        if place == 0 {
            line.push_str(part)?;
        } else if let Some(rest) = part.strip_prefix("}") {
            push_number(alloc, &mut line, number, rest)?;
        } else if let Some(rest) = part.strip_prefix("+1}") {
            push_number(alloc, &mut line, number.saturating_add(1), rest)?;
        } else {
            line.push_str("{n")?;
            line.push_str(part)?;
        }
    }
    Ok(line)
}

/// Puts the number and what follows it at the end of the line.
fn push_number(
    alloc: Global,
    line: &mut String,
    number: u64,
    rest: &str,
) -> Result<(), AllocError> {
    let digits = format!(in alloc; "{number}")?;
    line.push_str(digits.as_str())?;
    line.push_str(rest)
}

/// The bytes that a quoted text stands for.
fn unquoted(alloc: Global, text: &str) -> Result<Vec<u8>, AllocError> {
    let mut bytes = Vec::new(alloc);
    let mut escaped = false;
    for byte in text.bytes() {
        if escaped {
            bytes.push(escaped_byte(byte))?;
            escaped = false;
        } else if byte == b'\\' {
            escaped = true;
        } else {
            bytes.push(byte)?;
        }
    }
    Ok(bytes)
}

/// The byte for which a backslash and this one stand.
fn escaped_byte(byte: u8) -> u8 {
    match byte {
        b'n' => b'\n',
        b'r' => b'\r',
        b't' => b'\t',
        other => other,
    }
}
