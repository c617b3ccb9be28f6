//! The program: the script from standard input, files by their names in the working folder, and the report
//! to standard output, each line as it arises.
//!
//! It ends with the status that `run_program` answers, and names it on standard error where it isn't 0.
#![tactic(auto)]

use overlay_top::run_program;
use ovl_io::{FolderShelf, ReaderSource, WriterSink};
use std::env::{self, Env};
use std::io;
use std::process::ExitCode;

/// The status where the words aren't the command's, as those that aren't text aren't.
const BAD_WORDS: u8 = 2;

/// The status where there is no memory.
const NO_MEMORY: u8 = 1;

fn main(rt: HostRuntime) -> ExitCode {
    let status = status(&rt);
    if status != 0 {
        // Where standard error can't be written, the status alone tells.
        let _ = eprintln!(rt; "overlay-run: status {status}");
    }
    ExitCode::from(status)
}

/// Runs the program.
fn status(rt: &HostRuntime) -> u8 {
    let words = match words(rt) {
        Ok(words) => words,
        Err(status) => return status,
    };
    let mut script = ReaderSource::new(rt.reader());
    let mut shelf = FolderShelf::new(rt);
    let mut sink = WriterSink::new(io::writer(rt));
    run_program(
        rt.alloc(),
        words.as_slice(),
        &mut script,
        &mut shelf,
        &mut sink,
    )
}

/// The arguments without the program's name, or the status where there are none to be had.
fn words<R: Env + AllocGlobal>(rt: &R) -> Result<Vec<String>, u8> {
    let mut words = Vec::new(rt.alloc());
    let all = match env::args(rt) {
        Ok(all) => all,
        Err(error) if error.kind() == io::ErrorKind::OutOfMemory => return Err(NO_MEMORY),
        Err(_) => return Err(BAD_WORDS),
    };
    for word in all.skip(1) {
        if words.push(word).is_err() {
            return Err(NO_MEMORY);
        }
    }
    Ok(words)
}
