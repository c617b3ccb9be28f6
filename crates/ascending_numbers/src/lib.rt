//! Numbers that ascend, as one slice, with room at both ends.
//!
//! The model of `AscendingNumbers` is the list of the numbers, and for how many there is room.
//!
//! - `shifts`: numbers that make room for one, or close the gap that one leaves
//! - `numbers`: `AscendingNumbers` with its calls
#![tactic(auto)]

mod numbers;
mod shifts;

pub use numbers::AscendingNumbers;
