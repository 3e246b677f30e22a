//! A list of cases: its lines, one after another.
use crate::answer::ask;
use crate::comparison::answer;
use crate::line::{Call, Line, Piece, Question};
use crate::text::Draft;
use crate::transcript::Transcript;
use anyhow::{Context, Result, bail};
use std::fs;

/// A list under way.
#[derive(Drop)]
struct Cases<'a, 't> {
    rt: &'a HostRuntime,
    /// The file whose text is being read, until a line comes that is none of its text.
    draft: Option<Draft<'t>>,
}

/// Does what the list of this name says, and writes the transcript.
pub fn run_list(rt: &HostRuntime, name: &str, transcript: &mut Transcript) -> Result<()> {
    transcript.line("== ", name)?;
    let list = fs::read_to_string(rt, name).context(name)?;
    let mut cases = Cases { rt, draft: None };
    for (place, line) in list.lines().enumerate() {
        let number = place.saturating_add(1);
        cases
            .take(line, transcript)
            .context(format_args!("{name} line {number}"))?;
    }
    cases.write_draft()
}

impl<'t> Cases<'_, 't> {
    /// Does what the line says.
    fn take(&mut self, line: &'t str, transcript: &mut Transcript) -> Result<()> {
        match Line::read(self.rt.alloc(), line)? {
            Line::Text(piece) => self.push(&piece),
            Line::File(name) => self.begin(name),
            Line::Blank => self.repeat("", transcript),
            Line::Title(title) => self.repeat(title, transcript),
            Line::Call(call) => self.call(&call, transcript),
            Line::Question(question) => self.ask(&question, transcript),
        }
    }

    /// Puts the piece at the end of the file's text.
    fn push(&mut self, piece: &Piece<'_>) -> Result<()> {
        match &mut self.draft {
            Some(draft) => draft.push(self.rt, piece),
            None => bail!("this text is no file's"),
        }
    }

    /// Begins a file of this name.
    fn begin(&mut self, name: &'t str) -> Result<()> {
        self.write_draft()?;
        self.draft = Some(Draft::new(self.rt.alloc(), name));
        Ok(())
    }

    /// Repeats the line in the transcript.
    fn repeat(&mut self, line: &str, transcript: &mut Transcript) -> Result<()> {
        self.write_draft()?;
        transcript.line("", line)
    }

    /// Calls the program, and keeps the report where the call says so.
    fn call(&mut self, call: &Call<'_>, transcript: &mut Transcript) -> Result<()> {
        self.write_draft()?;
        transcript.line("$", call.text)?;
        let answer = ask(self.rt, &call.words)?;
        if let Some(name) = call.keep {
            fs::write(self.rt, name, answer.report.as_slice()).context(name)?;
        }
        transcript.answer(&answer, call.keep.is_none())
    }

    /// Answers the question.
    fn ask(&mut self, question: &Question<'_>, transcript: &mut Transcript) -> Result<()> {
        self.write_draft()?;
        transcript.line("? ", question.text)?;
        transcript.found(&answer(self.rt, &question.asked)?)
    }

    /// Writes the file whose text has been read.
    fn write_draft(&mut self) -> Result<()> {
        match self.draft.take() {
            Some(draft) => draft.write(self.rt),
            None => Ok(()),
        }
    }
}
