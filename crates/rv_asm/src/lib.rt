//! An assembler for RV64I: the file that a text of instructions and labels is.
//!
//! The model of a text is the words of its lines, as `asm_lines` has them. Items stand one behind the other from 0x10078
//! on, each of 4 bytes; a label is the address of the item behind it. The result is an ELF-64 file of the items' words,
//! which `read_image` of `elf_loader` takes, or the first refusal that holds.
//!
//! - `error`: the refusals
//! - `labels`: the labels of a text, and the items behind them
//! - `outcomes`: what an item comes to
//! - `code`: the bytes of the items
//! - `file`: the file of such bytes
//! - `assembly`: `assemble`
#![tactic(auto)]

mod assembly;
mod code;
mod error;
mod file;
mod labels;
mod outcomes;
#[cfg(test)]
mod tests;

pub use assembly::assemble;
pub use error::AsmError;

/// The most bytes of a text, those of a file that is fetched.
pub const MOST_TEXT_BYTES: usize = 1 << 24;

/// The most items of a text.
pub const MOST_ITEMS: u32 = 1 << 16;
