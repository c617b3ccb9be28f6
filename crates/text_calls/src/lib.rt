//! Tests of calls on texts and files: tables of files, scripts, words and lines of reports.
//!
//! It has nothing but tests. They stand here and not in the crates whose calls they are, since a crate with tests is proved twice.
//!
//! - `scripts`: calls of `script_text`
//! - `files`: calls of `elf_loader`
//! - `words`: calls of `rv_decode`
//! - `reports`, `instructions`: calls of `report_text`
//! - `workloads`: calls of `workload`
#![tactic(auto)]

#[cfg(test)]
mod tests;
