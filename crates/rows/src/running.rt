use crate::case::Given;
use crate::file::File;
use anyhow::{Result, bail};
use overlay_top::run_program;
use ovl_io::{Bytes, MemoryShelf, MemorySink, MemorySource, Source};
use std::alloc::{AllocError, Global};

/// What comes of a run, or is wanted to.
#[derive(Drop)]
pub struct Outcome {
    pub report: Vec<u8>,
    pub status: u8,
    /// How many bytes one more read of the source gives, of up to 4096; none where it isn't asked for.
    pub left: Option<usize>,
}

impl Outcome {
    /// Whether what came is what this one wants.
    pub fn is_met_by(&self, came: &Outcome) -> bool {
        self.status == came.status
            && self.report.as_slice() == came.report.as_slice()
            && (self.left.is_none() || self.left == came.left)
    }
}

/// Runs `run_program` over what a case gives and the files that are shared.
pub fn run(alloc: Global, given: Given, shared: &[File]) -> Result<Outcome> {
    let Given {
        words,
        script,
        files,
        source_most,
        source_fails,
        shelf_fails,
        sink_most,
        sink_fails,
        sink_room,
    } = given;
    if source_most == 0 || sink_most == 0 {
        bail!("a source and a sink move at least one byte a call");
    }
    let mut source = MemorySource::new(script, source_most, source_fails);
    let mut shelf = MemoryShelf::new(shelf_files(alloc, files, shared)?, shelf_fails);
    let mut sink = MemorySink::new(alloc, sink_room, sink_most, sink_fails)?;
    let status = run_program(alloc, words.as_slice(), &mut source, &mut shelf, &mut sink);
    Ok(Outcome {
        report: Vec::from_slice(alloc, sink.taken())?,
        status,
        left: left_in(&mut source),
    })
}

/// The files of a shelf: a case's own come before those that are shared.
fn shelf_files(
    alloc: Global,
    own: Vec<File>,
    shared: &[File],
) -> Result<Vec<(Bytes, Bytes)>, AllocError> {
    let mut files = Vec::new(alloc);
    for File { name, bytes } in own {
        files.push((Bytes::new(name.into_bytes()), Bytes::new(bytes)))?;
    }
    for file in shared {
        let name = Vec::from_slice(alloc, file.name.as_bytes())?;
        files.push((Bytes::new(name), Bytes::new(file.bytes.clone()?)))?;
    }
    Ok(files)
}

/// How many bytes one more read gives.
fn left_in(source: &mut MemorySource) -> Option<usize> {
    let mut rest = [0; 4096];
    source.read(&mut rest).ok()
}

/// The first line in which two reports differ, with its number from 1. A report that has ended has no line there.
pub fn first_difference<'a>(wanted: &'a [u8], came: &'a [u8]) -> Option<(u64, &'a str, &'a str)> {
    let (wanted, came) = (as_text(wanted), as_text(came));
    let mut wanted = wanted.split('\n');
    let mut came = came.split('\n');
    for k in 1..u64::MAX {
        let (want, line) = match (wanted.next(), came.next()) {
            (None, None) => return None,
            (want, line) => (want.unwrap_or("(no line)"), line.unwrap_or("(no line)")),
        };
        if want != line {
            return Some((k, want, line));
        }
    }
    None
}

fn as_text(bytes: &[u8]) -> &str {
    str::from_utf8(bytes).unwrap_or("(not text)")
}
