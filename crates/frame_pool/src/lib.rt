//! How many pages name each frame.
//!
//! The model of a `FramePool` is the list of the counts, one a frame. That a frame is free, or a page's alone,
//! is said of its count, and no table is looked at.
//!
//! - `pool`: the counts
#![tactic(auto)]

mod pool;

pub use pool::FramePool;
