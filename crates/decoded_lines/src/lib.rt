//! Lines of code, decoded: the instructions of some lines of 64 bytes, kept beside the bytes that they were decoded from.
//!
//! The model of a `DecodedLines` is the list of these lines, each the list of its bytes. What an instruction of one is isn't part of it: it
//! is a function of the bytes, by the table for which the lines are made, and kept so that it isn't computed again. Beside it stands how many
//! words are instructions one behind the other, so that one look tells all that can be executed in sequence.
//!
//! - `lines`: the lines and their instructions
#![tactic(auto)]

mod lines;

pub use lines::DecodedLines;

/// How many lines are kept.
pub const KEPT_LINES: usize = 1024;

/// How many words of four bytes a line has.
pub const LINE_WORDS: usize = 16;
