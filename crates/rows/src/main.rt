//! Cases as data: for each case of the files that its words name it runs `run_program` over the forms in
//! memory, and says whether the report and the status came that the case wants.
//!
//! - `case`: what a case has, and the lines that say it
//! - `file`: the program files of a case, and the lines that say their bytes
//! - `numbers`: the numbers and bytes that a line says
//! - `reading`: the cases of a text
//! - `running`: one case, run and compared
#![tactic(auto)]

mod case;
mod file;
mod numbers;
mod reading;
mod running;

use crate::case::Case;
use crate::file::File;
use crate::reading::read_cases;
use crate::running::{Outcome, first_difference, run};
use anyhow::{Context, Result};
use std::env::{self, Env};
use std::fs;
use std::process::ExitCode;
use std::rt::Files;

/// The status where a case went wrong.
const WRONG: u8 = 1;

/// The status where a file of cases can't be read, or has a line that says nothing.
const UNREAD: u8 = 2;

fn main(rt: HostRuntime) -> ExitCode {
    match run_files(&rt) {
        Ok(true) => ExitCode::from(0),
        Ok(false) => ExitCode::from(WRONG),
        Err(error) => {
            let _ = eprintln!(rt; "rows: {error:#}");
            ExitCode::from(UNREAD)
        }
    }
}

/// Runs the cases of each file that a word names, in order; answers whether all went well. The program files
/// of one that stand before its first case are there for all that follow.
fn run_files<R: Env + Files + Print + AllocGlobal>(rt: &R) -> Result<bool> {
    let mut shared = Vec::new(rt.alloc());
    let mut all_well = true;
    for name in env::args(rt)?.skip(1) {
        let text = fs::read_to_string(rt, name.as_str()).context(format_args!("{name}"))?;
        let cases = read_cases(rt.alloc(), text.as_str(), &mut shared).context(format_args!(
            "{name}"
        ))?;
        for case in cases {
            let well = run_case(rt, case, shared.as_slice())?;
            all_well = all_well && well;
        }
    }
    Ok(all_well)
}

/// Runs a case, and prints its line; below that of one that went wrong, what was wanted and what came.
fn run_case<R: Print + AllocGlobal>(rt: &R, case: Case, shared: &[File]) -> Result<bool> {
    let Case {
        name,
        given,
        wanted,
    } = case;
    let came = run(rt.alloc(), given, shared).context(format_args!("{name}"))?;
    if wanted.is_met_by(&came) {
        println!(rt; "passed: {name}")?;
        return Ok(true);
    }
    println!(rt; "FAILED: {name}")?;
    print_difference(rt, &wanted, &came)?;
    Ok(false)
}

/// Prints where what came is another than what was wanted.
fn print_difference<R: Print>(rt: &R, wanted: &Outcome, came: &Outcome) -> Result<()> {
    if wanted.status != came.status {
        println!(rt; "  status: wanted {}, came {}", wanted.status, came.status)?;
    }
    if let Some((k, want, line)) = first_difference(
        wanted.report.as_slice(),
        came.report.as_slice(),
    ) {
        println!(rt; "  line {k} of the report: wanted {want:?}, came {line:?}")?;
    }
    if let (Some(want), Some(left)) = (wanted.left, came.left)
        && want != left
    {
        println!(rt; "  bytes left in the source: wanted {want}, came {left}")?;
    }
    Ok(())
}
