//! Lines of 64 bytes, side by side in one piece of memory.
//!
//! The model of a `Region` is the list of its lines, each the list of its bytes. All lines are there and
//! zero from the start; their number never changes. Lines and pages are lent without copying. Lines far
//! behind the last one written aren't touched.
//!
//! - `region`: the lines, read and written by number
//! - `lines`: the raw memory behind them, private
#![tactic(auto)]

mod lines;
mod region;

pub use region::Region;

#[cfg(test)]
mod tests;
