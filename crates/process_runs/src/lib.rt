//! Runs: turns of a machine's processes, one after the other, up to an ending.
//!
//! The model is what turns come to over the copying machine: the events in their order, why they ended, how many were taken, and the machine
//! after them.
//!
//! - `turns`: a run in progress
//! - `taking`: its turns, taken
//! - `playing`: turns by a list of numbers
#![tactic(auto)]

mod playing;
mod taking;
mod turns;

pub use playing::play;
pub use taking::{begin, next_turn, turns_to_line};
pub use turns::{Order, Running};
