//! The lines that say an image: `image`, and 64 bytes as hexadecimal digits, fewer on the last line.
//!
//! The model is the text: a line of bytes, and a file as lines one behind the other (`specs/Lines.antt`). How a file is read, with its
//! first line that isn't well formed, stands in `specs/Reading.antt`. What the bytes say isn't asked.
//!
//! - `digits`: bytes as two digits each
//! - `lines`: a line, and the lines of a file
//! - `lines_error`: why a file can't be read
#![tactic(auto)]

mod digits;
mod lines;
mod lines_error;
#[cfg(test)]
mod tests;

pub use lines::read_lines;
pub use lines_error::LinesError;
