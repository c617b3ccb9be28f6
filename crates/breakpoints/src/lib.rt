//! Breakpoints: for each process, by its number, the addresses at which its turns stop.
//!
//! The model is a finite map from numbers to sets of addresses. Neither an address nor a process is searched for.
//!
//! - `addresses`: a set of addresses
//! - `by_process`: such a set for each number that has one
#![tactic(auto)]

mod addresses;
mod by_process;

pub use addresses::Addresses;
pub use by_process::Breakpoints;

/// How many words a piece has of which those with breakpoints are marked.
pub const PIECE_WORDS: u64 = 64;

/// How many bytes it has.
pub const PIECE_BYTES: u64 = 4 * PIECE_WORDS;

/// How many such pieces are told apart.
pub const MARKED_PIECES: usize = 128;
