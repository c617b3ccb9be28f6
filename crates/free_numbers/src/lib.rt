//! Which numbers of spaces are free, and the least of them in a few steps.
//!
//! The model of `FreeNumbers` is the list of its sets, each of 64 numbers; `is_in` says whether a number is in one of them.
//!
//! - `sets`: sets of 64 numbers each, side by side
//! - `numbers`: `FreeNumbers` with its calls
#![tactic(auto)]

mod numbers;
mod sets;

pub use numbers::FreeNumbers;

/// Numbers of a set: as many as `Bits` has.
pub const SET_NUMBERS: u16 = sizes::PAGE_LINES as u16;

/// Sets of all numbers of spaces, from 0 on.
pub const NUMBER_SETS: u16 = sizes::LAST_SPACE / SET_NUMBERS + 1;

/// Sets of the numbers of sets.
const MARK_SETS: u16 = NUMBER_SETS / SET_NUMBERS;
