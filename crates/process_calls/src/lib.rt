//! What a process asks of its own speculation: the three requests by which it begins one, commits it or discards it, and the registers
//! with which it goes on.
//!
//! The model is a request as a function of the registers and of the word at pc.
//!
//! - `calls`: which request that is, and the registers behind it
#![tactic(auto)]

mod calls;
#[cfg(test)]
mod tests;

pub use calls::{ProcessCall, call_at, gone_on, kept};
