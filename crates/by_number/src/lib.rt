//! Values by number, each found in one step.
//!
//! The model of a `ByNumber` is a finite map from numbers to values. That a number has no value takes a slot of the list at most, and
//! no call goes over values but `next_from`.
//!
//! - `slots`: a slot for each number, which has a value or is empty
//! - `values`: `ByNumber` with its calls
#![tactic(auto)]

mod slots;
mod values;

pub use values::ByNumber;
