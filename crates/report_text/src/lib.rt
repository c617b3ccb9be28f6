//! The lines of the report, as bytes with their end.
//!
//! Each call sets a `Line` to a text, whatever it held before, and takes no memory. The model is the text
//! itself: `specs/Lines.antt` says each line as digits and characters, in the order in which `lines` makes
//! them.
//!
//! - `answer`: what a command, a refusal and an ending are
//! - `report`: the calls
//! - `lines`: one function a line
//! - `instructions`: a word of memory as an instruction
//! - `names`: the printed names of refusals, faults and endings
//! - `push`: text, numbers and bytes at the end of a line
#![tactic(auto)]

mod answer;
mod instructions;
mod lines;
mod names;
mod push;
mod report;

pub use answer::{Answer, Code, Stop};
pub use push::Line;
pub use report::{
    answer_line, bad_line, checkpoint_line, disasm_line, disasm_m_line, dump_line, exported_line,
    image_line, image_lines, list_line, process_line, register_line, regs_line, stats_line,
    stop_line, turn_line, wrote_line,
};
use sizes::{LINE_BYTES, MOST_WRITTEN};

/// Bytes that a line has room for: three for each byte that a process writes in one turn, and as many again
/// as those bytes for all else.
pub const LINE_ROOM: usize = 4 * MOST_WRITTEN;

/// Bytes of an image whose lines stand in one `Line`, at most: those of 32 lines.
pub const BLOCK_BYTES: usize = 32 * LINE_BYTES;

/// The most bytes of memory on a line.
pub const ROW_BYTES: usize = 16;

/// The most bytes of a checkpoint's name.
pub const MOST_NAME: usize = 32;
