//! Sets of pages, which are gone through in ascending order.
//!
//! The model of a `PageSet` is a finite map from chunks of 64 pages to the places of the members in each, with the room that there is.
//! A chunk without a member isn't in it.
//!
//! - `rows`: chunks with their bits, by rising chunks
//! - `set`: `PageSet` with its calls
#![tactic(auto)]

mod rows;
mod set;

pub use set::PageSet;

/// Pages of a chunk: as many as `Bits` has numbers.
pub const CHUNK_PAGES: u64 = sizes::PAGE_LINES as u64;
