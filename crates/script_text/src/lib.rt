//! The script language: what the bytes of a script say.
//!
//! A script is read as lines, a line as words, and a line is a command where its words are those of one of
//! the forms; a line without words and a comment are no command, and any other line is outside. Parsing
//! gives the commands in order, or the number of the first line that is outside. The model is the grammar
//! itself: `specs/Forms.antt` has the table of forms, a row a form.
//!
//! - `script`: a script's commands
//! - `forms`: a line, by the table of forms
//! - `kinds`: what a word of each kind says
//! - `numbers`: how numbers are spelled
//! - `words`: the words of a line
//! - `lines`: the lines of a script
//! - `command`: the commands, and what may be wrong with a script
#![tactic(auto)]

mod command;
mod forms;
mod kinds;
mod lines;
mod numbers;
mod script;
mod words;

pub use command::{Command, ScriptError};
pub use lines::line_count;
pub use script::parse;
use sizes::PAGE_BYTES;

/// The most turns of a command.
pub const MOST_TURNS: u32 = 10_000_000;

/// The most pages that one command maps or gives up.
pub const MOST_PAGES: u32 = 1 << 16;

/// The most bytes that one command prints, those of 16 pages.
pub const MOST_DUMPED: u32 = 16 * PAGE_BYTES as u32;

/// The most bytes that one command stores, those of a page.
pub const MOST_POKED: usize = PAGE_BYTES;

/// The most words that one command prints as instructions.
pub const MOST_WORDS: u32 = PAGE_BYTES as u32;

/// The most bytes of a checkpoint's name.
pub const MOST_CHECKPOINT_NAME: usize = 32;

/// The number by which `set` names the pc, behind those of the registers.
pub const PC_NUMBER: u8 = 32;
