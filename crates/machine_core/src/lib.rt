//! The machine: spaces and processes by number, and what one instruction does to them.
//!
//! The model of a `Machine` is a record of the memories of all spaces, as `overlay_memory` shows them, and of a finite map of
//! processes: the registers and the state of each, which has the space of its own number. `event` is the step over
//! a whole memory, with the ledger of all pages after it, and `play` takes many.
//!
//! - `process`: what is shown of a process
//! - `bare_turn`: what came of a turn, without the bytes that it wrote
//! - `view`: the memory of one space, as an instruction sees it
//! - `hand`: the line that instructions are taken from, decoded
//! - `stretches`: instructions of one process, one after the other
//! - `guest`: what a process asks for
//! - `load`: what a load makes of an image
//! - `keeping`: processes by number and the list of those that run, kept together
//! - `machine`: `Machine` with its calls
#![tactic(auto)]

mod bare_turn;
mod guest;
mod hand;
mod keeping;
mod load;
mod machine;
mod process;
mod stretches;
mod view;

pub use bare_turn::BareTurn;
pub use machine::Machine;
pub use overlay_memory::SpaceError;
pub use process::{Process, SavedRegs};

#[cfg(test)]
mod tests;
