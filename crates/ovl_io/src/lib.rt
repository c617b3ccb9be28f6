//! What lies outside the machine, as traits with a ghost meaning, and the plain types of all crates.
//!
//! A `Source` is read, a `Shelf` gives files by name, a `Sink` takes the report. Each counts its faults,
//! and an answer `Failed` comes only where they rose. Where an object tells its bytes (its ghost member
//! `tells`), the clauses on bytes hold too: the model of a source is the list of the bytes that are left,
//! that of a shelf the files by name, that of a sink the list of the bytes that it took.
//!
//! - plain types: `Perms`, `FaultKind`, `ProcessState`, `Turn`, `Bytes`, `Written`, `Failed`
//! - `source`, `shelf`, `sink`: the traits
//! - `memory_source`, `sure_source`, `memory_shelf`, `one_file_shelf`, `memory_sink`, `count_sink`:
//!   forms in memory
//! - `reader_source`, `folder_shelf`, `writer_sink`: adapters to standard input, files and standard output
#![tactic(auto)]

mod bytes;
mod count_sink;
mod folder_shelf;
mod memory_shelf;
mod memory_sink;
mod memory_source;
mod one_file_shelf;
mod perms;
mod process_state;
mod reader_source;
mod shelf;
mod sink;
mod source;
mod sure_source;
mod turn;
mod writer_sink;

pub use bytes::Bytes;
pub use count_sink::CountSink;
pub use folder_shelf::FolderShelf;
pub use memory_shelf::MemoryShelf;
pub use memory_sink::MemorySink;
pub use memory_source::MemorySource;
pub use one_file_shelf::OneFileShelf;
pub use perms::Perms;
pub use process_state::{FaultKind, ProcessState};
pub use reader_source::ReaderSource;
pub use shelf::{Refusal, Shelf, ShelfError};
pub use sink::Sink;
pub use source::{Failed, Source};
pub use sure_source::SureSource;
pub use turn::{Turn, Written};
pub use writer_sink::WriterSink;

#[cfg(test)]
mod tests;
