//! Deduplication: a page of one space comes onto the frame of a page of another one, where few lines of them differ.
//!
//! What calls do is said of the memories and of the ledger of the state that the memory stands for.
//!
//! - `error`: why a page isn't put on another one
//! - `marks`: the frames that pages of a space are on
//! - `sharing`: one page, or all of a space
#![tactic(auto)]

mod error;
mod marks;
mod sharing;

pub use error::DedupError;
pub use sharing::{deduplicate, deduplicate_all};
