//! Bytes by number, each written and read at its place, of which the nearest to either end that has a bit is found in a
//! few steps: above the bytes stand levels of marks, each mark with the bits of sixteen bytes.
//!
//! The model of a `Level` is the list of its bytes. The marks don't show. Where many bytes of a group are written one after
//! the other, they are `Bytes`, and the `Level` above has their marks, which is told of a group once it was written.
//!
//! - `levels`: a level of bytes, and those above it
//! - `bytes`: bytes whose marks stand apart
#![tactic(auto)]

mod bytes;
mod levels;

pub use bytes::Bytes;
pub use levels::{End, Level, MOST_GROUPS};
