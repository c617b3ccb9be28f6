//! Tests of calls of the lower crates: those that no script shows, and those that take memory, each done once where there is enough.
//!
//! It has nothing but tests. They stand here and not in the crates whose calls they are, since a crate with tests is proved twice.
//!
//! - `turns`: calls of `round_robin`
//! - `levels`, `blocks`, `names`: calls of `mark_levels`, `unit_map` and `overlay_mapping_table`
//! - `lines`, `addresses`, `frames`: calls of `overlay_bits`, `overlay_address` and `frame_pool`
//! - `numbers`: calls of `by_number`
//! - `sets`, `pages`: calls of `page_set` and `page_table`
#![tactic(auto)]

#[cfg(test)]
mod tests;
