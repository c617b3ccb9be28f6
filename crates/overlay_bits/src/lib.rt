//! Sets of the 64 lines of a page, each a number of 64 bits.
//!
//! The model of a `Bits` is the ascending list of its members, which are below 64. How they are kept doesn't show.
//!
//! - `bits`: the set
//! - `iter`: its members, one after the other
//! - `composed`: a page of two pages, line by line by the set
#![tactic(auto)]

mod bits;
mod composed;
mod iter;

pub use bits::Bits;
pub use composed::compose;
pub use iter::BitsIter;
