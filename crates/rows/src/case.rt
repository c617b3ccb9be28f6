use crate::file::{File, take_file_line};
use crate::numbers::{calls, number, size, unescaped};
use crate::running::Outcome;
use anyhow::{Context, Result, bail};
use std::alloc::{AllocError, Global};

/// What `run_program` is given.
#[derive(Drop)]
pub struct Given {
    pub words: Vec<String>,
    pub script: Vec<u8>,
    /// Files beside those that are shared.
    pub files: Vec<File>,
    /// The most bytes that a call of the source gives, and the calls that fail.
    pub source_most: usize,
    pub source_fails: Vec<u32>,
    /// The fetches that fail.
    pub shelf_fails: Vec<u32>,
    /// The most bytes that a call of the sink takes, the calls that fail, and the room for all bytes.
    pub sink_most: usize,
    pub sink_fails: Vec<u32>,
    pub sink_room: usize,
}

/// A case: what is given, and what has to come.
#[derive(Drop)]
pub struct Case {
    pub name: String,
    pub given: Given,
    pub wanted: Outcome,
}

impl Case {
    /// A case of this name, of which nothing more is said yet.
    pub fn new(alloc: Global, name: &str) -> Result<Case, AllocError> {
        let given = Given {
            words: Vec::new(alloc),
            script: Vec::new(alloc),
            files: Vec::new(alloc),
            source_most: 4096,
            source_fails: Vec::new(alloc),
            shelf_fails: Vec::new(alloc),
            sink_most: 4096,
            sink_fails: Vec::new(alloc),
            sink_room: 1_048_576,
        };
        let wanted = Outcome {
            report: Vec::new(alloc),
            status: 0,
            left: None,
        };
        let name = String::from_str(alloc, name)?;
        Ok(Case {
            name,
            given,
            wanted,
        })
    }

    /// Takes a line of the case. Its first word, or the arrow that it begins with, says what of it.
    pub fn take_line(&mut self, alloc: Global, line: &str, shared: &[File]) -> Result<()> {
        if let Some(rest) = line.strip_prefix("<<") {
            return push_text(alloc, rest, Text::Escaped, &mut self.given.script);
        }
        if let Some(rest) = line.strip_prefix('<') {
            return push_text(alloc, rest, Text::Lines, &mut self.given.script);
        }
        if let Some(rest) = line.strip_prefix(">>") {
            return push_text(alloc, rest, Text::Plain, &mut self.wanted.report);
        }
        if let Some(rest) = line.strip_prefix('>') {
            return push_text(alloc, rest, Text::Lines, &mut self.wanted.report);
        }
        let (word, rest) = line.split_once(' ').unwrap_or((line, ""));
        if take_file_line(alloc, (word, rest), &mut self.given.files, shared)? {
            return Ok(());
        }
        self.take_setting(alloc, word, rest)
    }

    fn take_setting(&mut self, alloc: Global, word: &str, rest: &str) -> Result<()> {
        let given = &mut self.given;
        match word {
            "word" => given
                .words
                .push(String::from_utf8(unescaped(alloc, rest)?)?)?,
            "source_most" => given.source_most = size(rest)?,
            "source_fails" => given.source_fails = calls(alloc, rest)?,
            "shelf_fails" => given.shelf_fails = calls(alloc, rest)?,
            "sink_most" => given.sink_most = size(rest)?,
            "sink_fails" => given.sink_fails = calls(alloc, rest)?,
            "sink_room" => given.sink_room = size(rest)?,
            "status" => self.wanted.status = u8::try_from(number(rest)?)?,
            "left" => self.wanted.left = Some(size(rest)?),
            _ => bail!("{word:?} begins no line of a case"),
        }
        Ok(())
    }
}

/// How a line says bytes of a script or a report.
#[derive(Clone, Copy)]
enum Text {
    /// A line end belongs to it.
    Lines,
    /// None does.
    Plain,
    /// None does, and a backslash and two digits stand for a byte.
    Escaped,
}

/// Appends what stands behind an arrow. A number right behind it says how many times, and two with `..` between them that it
/// comes once for each number from the one to the other, which stands in the place of `#`.
fn push_text(alloc: Global, rest: &str, kind: Text, into: &mut Vec<u8>) -> Result<()> {
    let (times, text) = rest.split_once(' ').unwrap_or((rest, ""));
    let end = if matches!(kind, Text::Lines) {
        "\n"
    } else {
        ""
    };
    if let Some((first, last)) = times.split_once("..") {
        let (before, after) = text
            .split_once('#')
            .context("a # is wanted, where each number stands")?;
        for n in number(first)?..=number(last)? {
            let line = format!(in alloc; "{before}{n}{after}{end}")?;
            into.extend_from_slice(line.as_bytes())?;
        }
        return Ok(());
    }
    let mut piece = if matches!(kind, Text::Escaped) {
        unescaped(alloc, text)?
    } else {
        Vec::from_slice(alloc, text.as_bytes())?
    };
    piece.extend_from_slice(end.as_bytes())?;
    let count = if times.is_empty() { 1 } else { number(times)? };
    for _ in 0..count {
        into.extend_from_slice(piece.as_slice())?;
    }
    Ok(())
}
