//! Copies of spaces: a space that is made, or that gives its pages up, shares the frames of another one, and has a copy of each of
//! its overlays.
//!
//! What calls do is said of the state that the memory stands for, and of the ledger that is a function of it.
//!
//! - `forking`: a new space with the pages of another one
//! - `restoring`: a space with the pages of another one in the place of its own
//! - `sharing`: the pages are shared, one after the other
//! - `units`: the units after it, before anything is changed
#![tactic(auto)]

mod forking;
mod restoring;
mod sharing;
mod units;

pub use forking::fork_space;
pub use restoring::restore_space;
