//! Tests of calls of memories: those that no script shows, and those that take memory, each done once where there is enough.
//!
//! It has nothing but tests. They stand here and not in the crates whose calls they are, since a crate with tests is proved twice.
//!
//! - `ledgers`: calls of `space_ledger`
//! - `memory`: calls of `overlay_memory` and `fork_checkpoint`
//! - `many_calls`: calls as they are drawn, beside plain pages
//! - `plain_pages`: these
//! - `spaces`: a memory in which no page awaits
#![tactic(auto)]

#[cfg(test)]
mod tests;
