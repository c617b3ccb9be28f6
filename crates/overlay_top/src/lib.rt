//! The top call: from the words, the script and the files to the report and the status.
//!
//! The model is the outcome: a function of the words, the script's bytes and the files by name to a
//! report and a status, over a machine whose memories are whole. `run_program` says that what its sink
//! took and what it answers end so.
//!
//! - `words`: the words of the command line
//! - `reading`: the script, from the source
//! - `making`: script and file out of a seed, in place of those of the outside
//! - `sending`: texts, to the sink
//! - `commands`: one command, on the session
//! - `printing`: bytes of a process, as lines
//! - `running`: the commands of a script, and the files that they ask for
//! - `status`: how a call ended
//! - `top`: `run_program`
#![tactic(auto)]

mod commands;
mod making;
mod printing;
mod reading;
mod running;
mod sending;
mod status;
mod top;
mod words;

pub use top::run_program;

#[cfg(test)]
mod tests;
