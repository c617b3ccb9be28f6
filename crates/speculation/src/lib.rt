//! Speculation: a space is settled and marked; from then on its stores go into overlays, which are committed or given up.
//!
//! What calls do is said of the state that the memory stands for, and of the ledger that is a function of it.
//!
//! - `error`: why a call isn't done
//! - `discarding`: the overlays of a space are given up
//! - `speculating`: start, commit, discard
#![tactic(auto)]

mod discarding;
mod error;
mod speculating;

pub use error::SpeculationError;
pub use speculating::{commit, discard, start};
