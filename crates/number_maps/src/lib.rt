//! Laws of finite maps whose keys are numbers. It has no function: specs and proofs of the crates above cite it.
//!
//! - `specs/Keys.antt`: what was put at a key, what was taken away, and when two maps are equal
//! - `specs/Cuts.antt`: the entries of a map as those before a key, the key's, and those behind it
//! - `specs/Values.antt`: the values under a test, and sums over them
//! - `specs/Views.antt`: a map whose values are seen in another way
//! - `specs/Slots.antt`: a list of slots seen as a map
//! - `specs/Rows.antt`: a map that is kept as rows by rising keys
//! - `specs/RowLaws.antt`: what a change of rows does to their map, what stands next, and what a search finds
#![tactic(auto)]
