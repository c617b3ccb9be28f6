//! Lists of fixed length whose elements are alike until they are written.
//!
//! The model of a `Filled` is the list of all its elements.
//!
//! - `filled`: `Filled` with its calls
#![tactic(auto)]

mod filled;

pub use filled::Filled;
