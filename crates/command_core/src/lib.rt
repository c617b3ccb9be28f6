//! The session: what the commands of a script do to a machine of several processes.
//!
//! The model is the copying machine: the processes by number, each with its whole memory, the checkpoints by name, and the breakpoints
//! of each process; for each command what it comes to, as one value.
//!
//! - `modes`: what is fixed for a whole run
//! - `session`: loads, changes, and what is looked up
//! - `assembling`: why a text isn't assembled
//! - `forking`: a process under a second number
//! - `saving`: checkpoints of processes, made and put back
//! - `checkpoints`: what is kept of them, by name
//! - `imaging`: checkpoints as images, exported and imported
//! - `process_changes`: changes of one process that is there: speculation, promotion, pages and registers
//! - `mapping`: pages that are mapped, and that are given up
//! - `dedup`: pages that are put on those of another process
//! - `poking`: bytes that are stored
//! - `reading`: bytes that are looked at
#![tactic(auto)]

mod assembling;
mod checkpoints;
mod dedup;
mod forking;
mod imaging;
mod mapping;
mod modes;
mod poking;
mod process_changes;
mod reading;
mod saving;
mod session;

pub use imaging::{ExportError, MOST_EXPORTED};
pub use modes::Modes;
pub use process_runs::{Order, Running};
pub use session::{CheckpointView, Counts, ProcessView, Session};

/// Bytes of an instruction's word.
pub const WORD_BYTES: u64 = 4;
