//! Tests of calls of `segment_store`: those that no script shows, and `new`, which takes memory, done where there is enough.
//!
//! It has nothing but tests. They stand here and not in the crate whose calls they are, since a crate with tests is proved twice.
//!
//! - `segments`: segments that begin and end
//! - `copies`: segments and pages that are copied
//! - `releases`: the segments of a whole run, with the lines that each release copies
//! - `stores`: a store that is settled, and what is there in it
#![tactic(auto)]

#[cfg(test)]
mod tests;
